// lib.rt - operation word to kind, and which kinds are privileged. The word alone decides; extension words are not read.
// Means: kind_of and privileged in specs/Rows.antt, of_word in specs/Chain.antt.  Laws: proofs/RowsLaws.antt, proofs/AgreementLaws.antt.
// Uses: bits, kinds, classes, lines, line_four.  Source: [003 B], [01 step 4].
#![tactic(auto)]

ghost use Rattle.std.specs.Prelude.{◌≡◌};
ghost use Rattle.decode.specs.Rows.{kind_of, privileged};
ghost use Rattle.decode.specs.Chain.{of_word};

pub mod classes;
pub mod kinds;
pub mod line_four;
mod lines;

// the kind of a word of sixteen bits, by its line
#[tactic(auto, unfolding(crate::specs::Chain::of_word))]
fn of_word(op: u32) -> u32
    ensures { result ≡ of_word op }
{
    match op / 4096 % 16 {
        0 => lines::line_0(op),
        1 => lines::movement(op, classes::DATA, kinds::ILLEGAL),
        2 => lines::movement(op, classes::EVERY, kinds::MOVE_A),
        3 => lines::movement(op, classes::EVERY, kinds::MOVE_A),
        4 => line_four::line_4(op),
        5 => lines::line_5(op),
        6 => lines::line_6(op),
        7 => classes::choose(op / 256 % 2 == 0, kinds::MOVE_Q, kinds::ILLEGAL),
        8 => lines::line_8(op),
        9 => lines::arithmetic(
            op,
            kinds::SUB_TO_REGISTER,
            kinds::SUB_A,
            classes::REGISTER_OR_PREDECREMENT,
            kinds::SUB_X,
            classes::MEMORY_ALTERABLE,
            kinds::SUB_TO_MEMORY,
        ),
        10 => kinds::LINE_A,
        11 => lines::arithmetic(
            op,
            kinds::CMP,
            kinds::CMP_A,
            classes::ADDRESS_REGISTER,
            kinds::CMP_M,
            classes::DATA_ALTERABLE,
            kinds::EOR,
        ),
        12 => lines::line_12(op),
        13 => lines::arithmetic(
            op,
            kinds::ADD_TO_REGISTER,
            kinds::ADD_A,
            classes::REGISTER_OR_PREDECREMENT,
            kinds::ADD_X,
            classes::MEMORY_ALTERABLE,
            kinds::ADD_TO_MEMORY,
        ),
        14 => lines::line_14(op),
        _ => kinds::LINE_F,
    }
}

// The kind of the operation word in op's low sixteen bits.
pub fn kind_of(op: u32) -> u32
    ensures { result ≡ kind_of op }
{
    of_word(op % 65536)
}

// Whether only supervisor state may do the kind.
#[tactic(auto, unfolding(crate::specs::Rows::privileged))]
pub fn privileged(kind: u32) -> bool
    ensures { result ≡ privileged kind }
{
    let immediate = (kind == kinds::AND_I_TO_SR)
        | (kind == kinds::EOR_I_TO_SR)
        | (kind == kinds::OR_I_TO_SR);
    let moves = (kind == kinds::MOVE_TO_SR)
        | (kind == kinds::MOVE_TO_USP)
        | (kind == kinds::MOVE_FROM_USP);
    let others = (kind == kinds::RESET) | (kind == kinds::RTE) | (kind == kinds::STOP);
    immediate | moves | others
}
