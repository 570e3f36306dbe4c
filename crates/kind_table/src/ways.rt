// ways.rt - the ways in which the low six bits decide of a word's kind, and what an entry of the table tells.
// Means: specs/Ways.antt.  Laws: proofs/WayLaws.antt.
// Uses: decode.  Source: [K9], [003 B].
ghost use Rattle.std.specs.Prelude.{◌≡◌, true};
ghost use Rattle.decode.specs.Chain.{address_register};
ghost use Rattle.kind_table.specs.Ways.{only, either, exchanges, plain_modes, way_at, told};

use decode::{classes, kinds, line_four};

// An entry from here on is no kind: the low six bits decide.
const DECIDE: u32 = 128;

// one class; where it does not allow the low six bits, the word is illegal
fn only(class: u64, kind: u32, op: u32) -> u32
    ensures { result ≡ only class kind op }
{
    classes::fit(class, op, kind, kinds::ILLEGAL)
}

// two classes
fn either(class: u64, kind: u32, second: u64, other: u32, op: u32) -> u32
    ensures { result ≡ either class kind second other op }
{
    classes::fit(class, op, kind, only(second, other, op))
}

// three classes, in one way alone: line 12, bits 8 to 6 are 101
fn exchanges(op: u32) -> u32
    ensures { result ≡ exchanges op }
{
    let rest = either(
        classes::ADDRESS_REGISTER,
        kinds::EXG_ADDRESS,
        classes::MEMORY_ALTERABLE,
        kinds::AND_TO_MEMORY,
        op,
    );
    classes::fit(classes::DATA_REGISTER, op, kinds::EXG_DATA, rest)
}

// Two, An's and a class that allows all modes but An's and 7 whatever the register: asked by mode, so that the compiler goes from
// the table to the commonest instructions without a kind between (docs/DECISIONS.md D99).
fn by_mode(address: u32, class: u64, kind: u32, op: u32) -> u32
    requires { plain_modes class ≡ true }
    ensures { result ≡ either address_register address class kind op }
{
    match op / 8 % 8 {
        1 => address,
        7 => only(class, kind, op),
        _ => kind,
    }
}

// the n-th way
fn by_way(n: u32, op: u32) -> u32
    ensures { result ≡ way_at n op }
{
    match n {
        0 => either(
            classes::DATA_ALTERABLE,
            kinds::OR_I,
            classes::IMMEDIATE,
            kinds::OR_I_TO_CCR,
            op,
        ),
        1 => either(
            classes::DATA_ALTERABLE,
            kinds::OR_I,
            classes::IMMEDIATE,
            kinds::OR_I_TO_SR,
            op,
        ),
        2 => only(classes::DATA_ALTERABLE, kinds::OR_I, op),
        3 => either(
            classes::DATA,
            kinds::BIT_DYNAMIC,
            classes::ADDRESS_REGISTER,
            kinds::MOVE_P_TO_REGISTER,
            op,
        ),
        4 => either(
            classes::DATA_ALTERABLE,
            kinds::BIT_DYNAMIC,
            classes::ADDRESS_REGISTER,
            kinds::MOVE_P_TO_REGISTER,
            op,
        ),
        5 => either(
            classes::DATA_ALTERABLE,
            kinds::BIT_DYNAMIC,
            classes::ADDRESS_REGISTER,
            kinds::MOVE_P_TO_MEMORY,
            op,
        ),
        6 => either(
            classes::DATA_ALTERABLE,
            kinds::AND_I,
            classes::IMMEDIATE,
            kinds::AND_I_TO_CCR,
            op,
        ),
        7 => either(
            classes::DATA_ALTERABLE,
            kinds::AND_I,
            classes::IMMEDIATE,
            kinds::AND_I_TO_SR,
            op,
        ),
        8 => only(classes::DATA_ALTERABLE, kinds::AND_I, op),
        9 => only(classes::DATA_ALTERABLE, kinds::SUB_I, op),
        10 => only(classes::DATA_ALTERABLE, kinds::ADD_I, op),
        11 => only(classes::DATA_NOT_IMMEDIATE, kinds::BIT_STATIC, op),
        12 => only(classes::DATA_ALTERABLE, kinds::BIT_STATIC, op),
        13 => either(
            classes::DATA_ALTERABLE,
            kinds::EOR_I,
            classes::IMMEDIATE,
            kinds::EOR_I_TO_CCR,
            op,
        ),
        14 => either(
            classes::DATA_ALTERABLE,
            kinds::EOR_I,
            classes::IMMEDIATE,
            kinds::EOR_I_TO_SR,
            op,
        ),
        15 => only(classes::DATA_ALTERABLE, kinds::EOR_I, op),
        16 => only(classes::DATA_ALTERABLE, kinds::CMP_I, op),
        17 => by_mode(kinds::ILLEGAL, classes::EVERY, kinds::MOVE, op),
        18 => by_mode(kinds::MOVE, classes::EVERY, kinds::MOVE, op),
        19 => only(classes::EVERY, kinds::MOVE_A, op),
        20 => only(classes::DATA_ALTERABLE, kinds::NEG_X, op),
        21 => only(classes::DATA_ALTERABLE, kinds::MOVE_FROM_SR, op),
        22 => only(classes::DATA, kinds::CHK, op),
        23 => only(classes::CONTROL, kinds::LEA, op),
        24 => only(classes::DATA_ALTERABLE, kinds::CLR, op),
        25 => only(classes::DATA_ALTERABLE, kinds::NEG, op),
        26 => only(classes::DATA, kinds::MOVE_TO_CCR, op),
        27 => only(classes::DATA_ALTERABLE, kinds::NOT, op),
        28 => only(classes::DATA, kinds::MOVE_TO_SR, op),
        29 => only(classes::DATA_ALTERABLE, kinds::NBCD, op),
        30 => either(
            classes::DATA_REGISTER,
            kinds::SWAP,
            classes::CONTROL,
            kinds::PEA,
            op,
        ),
        31 => either(
            classes::DATA_REGISTER,
            kinds::EXT,
            classes::CONTROL_ALTERABLE_OR_PREDECREMENT,
            kinds::MOVE_M_TO_MEMORY,
            op,
        ),
        32 => only(classes::DATA_ALTERABLE, kinds::TST, op),
        33 => only(classes::DATA_ALTERABLE, kinds::TAS, op),
        34 => only(
            classes::CONTROL_OR_POSTINCREMENT,
            kinds::MOVE_M_TO_REGISTERS,
            op,
        ),
        35 => line_four::four_e(op),
        36 => only(classes::CONTROL, kinds::JSR, op),
        37 => only(classes::CONTROL, kinds::JMP, op),
        38 => only(classes::DATA_ALTERABLE, kinds::ADD_Q, op),
        39 => either(
            classes::DATA_ALTERABLE,
            kinds::ADD_Q,
            classes::ADDRESS_REGISTER,
            kinds::ADD_Q_A,
            op,
        ),
        40 => by_mode(kinds::DBCC, classes::DATA_ALTERABLE, kinds::SCC, op),
        41 => only(classes::DATA_ALTERABLE, kinds::SUB_Q, op),
        42 => either(
            classes::DATA_ALTERABLE,
            kinds::SUB_Q,
            classes::ADDRESS_REGISTER,
            kinds::SUB_Q_A,
            op,
        ),
        43 => only(classes::DATA, kinds::OR_TO_REGISTER, op),
        44 => only(classes::DATA, kinds::DIV_U, op),
        45 => either(
            classes::REGISTER_OR_PREDECREMENT,
            kinds::SBCD,
            classes::MEMORY_ALTERABLE,
            kinds::OR_TO_MEMORY,
            op,
        ),
        46 => only(classes::MEMORY_ALTERABLE, kinds::OR_TO_MEMORY, op),
        47 => only(classes::DATA, kinds::DIV_S, op),
        48 => only(classes::DATA, kinds::SUB_TO_REGISTER, op),
        49 => only(classes::EVERY, kinds::SUB_TO_REGISTER, op),
        50 => only(classes::EVERY, kinds::SUB_A, op),
        51 => either(
            classes::REGISTER_OR_PREDECREMENT,
            kinds::SUB_X,
            classes::MEMORY_ALTERABLE,
            kinds::SUB_TO_MEMORY,
            op,
        ),
        52 => only(classes::DATA, kinds::CMP, op),
        53 => only(classes::EVERY, kinds::CMP, op),
        54 => only(classes::EVERY, kinds::CMP_A, op),
        55 => either(
            classes::DATA_ALTERABLE,
            kinds::EOR,
            classes::ADDRESS_REGISTER,
            kinds::CMP_M,
            op,
        ),
        56 => only(classes::DATA, kinds::AND_TO_REGISTER, op),
        57 => only(classes::DATA, kinds::MUL_U, op),
        58 => either(
            classes::REGISTER_OR_PREDECREMENT,
            kinds::ABCD,
            classes::MEMORY_ALTERABLE,
            kinds::AND_TO_MEMORY,
            op,
        ),
        59 => exchanges(op),
        60 => either(
            classes::ADDRESS_REGISTER,
            kinds::EXG_BOTH,
            classes::MEMORY_ALTERABLE,
            kinds::AND_TO_MEMORY,
            op,
        ),
        61 => only(classes::DATA, kinds::MUL_S, op),
        62 => only(classes::DATA, kinds::ADD_TO_REGISTER, op),
        63 => only(classes::EVERY, kinds::ADD_TO_REGISTER, op),
        64 => only(classes::EVERY, kinds::ADD_A, op),
        65 => either(
            classes::REGISTER_OR_PREDECREMENT,
            kinds::ADD_X,
            classes::MEMORY_ALTERABLE,
            kinds::ADD_TO_MEMORY,
            op,
        ),
        _ => only(classes::MEMORY_ALTERABLE, kinds::SHIFT_MEMORY, op),
    }
}

// What an entry tells of a word: it names the kind, or the low six bits decide.
pub fn told(entry: u32, op: u32) -> u32
    ensures { result ≡ told entry op }
{
    let names = entry < DECIDE;
    if names {
        return entry;
    }
    by_way(entry - DECIDE, op)
}
