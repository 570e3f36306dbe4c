// line_four.rt - the kinds of line 4.
// Means: specs/Chain.antt, which each function opens by itself.
// Uses: kinds, classes.  Source: [003 B].
ghost use Rattle.std.specs.Prelude.{◌≡◌};
ghost use Rattle.decode.specs.Chain.{one_operand, four_eight, single, four_e, four_fourteen, four_even, line_4};

use crate::{classes, kinds};

// line 4: the kind of three sizes, and what size 3 stands for
#[tactic(auto, unfolding(crate::specs::Chain::one_operand))]
fn one_operand(op: u32, sized: u32, class: u64, other: u32) -> u32
    ensures { result ≡ one_operand op sized class other }
{
    let full = classes::fit(class, op, other, kinds::ILLEGAL);
    classes::choose(
        op / 64 % 4 == 3,
        full,
        classes::fit(classes::DATA_ALTERABLE, op, sized, kinds::ILLEGAL),
    )
}

// line 4, bits 11 to 8 are 1000
#[tactic(auto, unfolding(crate::specs::Chain::four_eight))]
fn four_eight(op: u32) -> u32
    ensures { result ≡ four_eight op }
{
    let o = op / 64 % 4;
    let nbcd = classes::fit(classes::DATA_ALTERABLE, op, kinds::NBCD, kinds::ILLEGAL);
    let pea = classes::fit(classes::CONTROL, op, kinds::PEA, kinds::ILLEGAL);
    let movem = classes::fit(
        classes::CONTROL_ALTERABLE_OR_PREDECREMENT,
        op,
        kinds::MOVE_M_TO_MEMORY,
        kinds::ILLEGAL,
    );
    let pair = classes::choose(o == 1, pea, movem);
    let register = classes::choose(o == 1, kinds::SWAP, kinds::EXT);
    classes::choose(
        o == 0,
        nbcd,
        classes::fit(classes::DATA_REGISTER, op, register, pair),
    )
}

// $4E70 to $4E77
#[tactic(auto, unfolding(crate::specs::Chain::single))]
fn single(op: u32) -> u32
    ensures { result ≡ single op }
{
    match op % 8 {
        0 => kinds::RESET,
        1 => kinds::NOP,
        2 => kinds::STOP,
        3 => kinds::RTE,
        4 => kinds::ILLEGAL,
        5 => kinds::RTS,
        6 => kinds::TRAP_V,
        _ => kinds::RTR,
    }
}

// $4E40 to $4E7F
#[tactic(auto, unfolding(crate::specs::Chain::four_e))]
pub fn four_e(op: u32) -> u32
    ensures { result ≡ four_e op }
{
    match op / 8 % 8 {
        0 => kinds::TRAP,
        1 => kinds::TRAP,
        2 => kinds::LINK,
        3 => kinds::UNLK,
        4 => kinds::MOVE_TO_USP,
        5 => kinds::MOVE_FROM_USP,
        6 => single(op),
        _ => kinds::ILLEGAL,
    }
}

// line 4, bits 11 to 8 are 1110
#[tactic(auto, unfolding(crate::specs::Chain::four_fourteen))]
fn four_fourteen(op: u32) -> u32
    ensures { result ≡ four_fourteen op }
{
    let o = op / 64 % 4;
    let jumps = 2 <= o;
    if jumps {
        return classes::fit(
            classes::CONTROL,
            op,
            classes::choose(o == 2, kinds::JSR, kinds::JMP),
            kinds::ILLEGAL,
        );
    }
    let plain = o == 0;
    if plain {
        return kinds::ILLEGAL;
    }
    four_e(op)
}

// line 4, bit 8 clear
#[tactic(auto, unfolding(crate::specs::Chain::four_even))]
fn four_even(op: u32) -> u32
    ensures { result ≡ four_even op }
{
    match op / 512 % 8 {
        0 => one_operand(
            op,
            kinds::NEG_X,
            classes::DATA_ALTERABLE,
            kinds::MOVE_FROM_SR,
        ),
        1 => one_operand(op, kinds::CLR, classes::DATA, kinds::ILLEGAL),
        2 => one_operand(op, kinds::NEG, classes::DATA, kinds::MOVE_TO_CCR),
        3 => one_operand(op, kinds::NOT, classes::DATA, kinds::MOVE_TO_SR),
        4 => four_eight(op),
        5 => one_operand(op, kinds::TST, classes::DATA_ALTERABLE, kinds::TAS),
        6 => classes::fit(
            classes::CONTROL_OR_POSTINCREMENT,
            op,
            classes::choose(2 <= op / 64 % 4, kinds::MOVE_M_TO_REGISTERS, kinds::ILLEGAL),
            kinds::ILLEGAL,
        ),
        _ => four_fourteen(op),
    }
}

#[tactic(auto, unfolding(crate::specs::Chain::line_4))]
pub fn line_4(op: u32) -> u32
    ensures { result ≡ line_4 op }
{
    let even = op / 256 % 2 == 0;
    if even {
        return four_even(op);
    }
    let o = op / 64 % 4;
    let chk = classes::fit(
        classes::DATA,
        op,
        classes::choose(o == 2, kinds::CHK, kinds::ILLEGAL),
        kinds::ILLEGAL,
    );
    classes::choose(
        o == 3,
        classes::fit(classes::CONTROL, op, kinds::LEA, kinds::ILLEGAL),
        chk,
    )
}
