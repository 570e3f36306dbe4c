// lines.rt - the kinds of the other lines.
// Means: specs/Chain.antt, which each function opens by itself.
// Uses: kinds, classes.  Source: [003 B].
ghost use Rattle.std.specs.Prelude.{◌≡◌};
ghost use Rattle.decode.specs.Chain.{immediate_sized, immediate_status, immediate, bit_static, bit_or_movep, line_0, movement, line_5, line_6};
ghost use Rattle.decode.specs.Chain.{arithmetic, pair_or_memory, logical, line_14, line_8, line_12};

use crate::{classes, kinds};

// line 0, bit 8 clear: the kind that bits 11 to 9 name
#[tactic(auto, unfolding(crate::specs::Chain::immediate_sized))]
fn immediate_sized(op: u32) -> u32
    ensures { result ≡ immediate_sized op }
{
    match op / 512 % 8 {
        0 => kinds::OR_I,
        1 => kinds::AND_I,
        2 => kinds::SUB_I,
        3 => kinds::ADD_I,
        5 => kinds::EOR_I,
        6 => kinds::CMP_I,
        _ => kinds::ILLEGAL,
    }
}

// line 0, low six bits 60: the kind that bits 11 to 6 name
#[tactic(auto, unfolding(crate::specs::Chain::immediate_status))]
fn immediate_status(op: u32) -> u32
    ensures { result ≡ immediate_status op }
{
    match op / 64 % 64 {
        0 => kinds::OR_I_TO_CCR,
        1 => kinds::OR_I_TO_SR,
        8 => kinds::AND_I_TO_CCR,
        9 => kinds::AND_I_TO_SR,
        40 => kinds::EOR_I_TO_CCR,
        41 => kinds::EOR_I_TO_SR,
        _ => kinds::ILLEGAL,
    }
}

// line 0, bit 8 clear and bits 11 to 9 not 4
#[tactic(auto, unfolding(crate::specs::Chain::immediate))]
fn immediate(op: u32) -> u32
    ensures { result ≡ immediate op }
{
    let status = classes::fit(classes::IMMEDIATE, op, immediate_status(op), kinds::ILLEGAL);
    let sized = classes::fit(classes::DATA_ALTERABLE, op, immediate_sized(op), status);
    classes::choose(op / 64 % 4 == 3, kinds::ILLEGAL, sized)
}

// line 0, bits 11 to 9 are 4 and bit 8 is clear
#[tactic(auto, unfolding(crate::specs::Chain::bit_static))]
fn bit_static(op: u32) -> u32
    ensures { result ≡ bit_static op }
{
    let test = classes::fit(
        classes::DATA_NOT_IMMEDIATE,
        op,
        kinds::BIT_STATIC,
        kinds::ILLEGAL,
    );
    let change = classes::fit(
        classes::DATA_ALTERABLE,
        op,
        kinds::BIT_STATIC,
        kinds::ILLEGAL,
    );
    classes::choose(op / 64 % 4 == 0, test, change)
}

// line 0, bit 8 set
#[tactic(auto, unfolding(crate::specs::Chain::bit_or_movep))]
fn bit_or_movep(op: u32) -> u32
    ensures { result ≡ bit_or_movep op }
{
    let test = classes::fit(classes::DATA, op, kinds::BIT_DYNAMIC, kinds::ILLEGAL);
    let change = classes::fit(
        classes::DATA_ALTERABLE,
        op,
        kinds::BIT_DYNAMIC,
        kinds::ILLEGAL,
    );
    let bits = classes::choose(op / 64 % 4 == 0, test, change);
    let movep = classes::choose(
        op / 128 % 2 == 0,
        kinds::MOVE_P_TO_REGISTER,
        kinds::MOVE_P_TO_MEMORY,
    );
    classes::fit(classes::ADDRESS_REGISTER, op, movep, bits)
}

#[tactic(auto, unfolding(crate::specs::Chain::line_0))]
pub fn line_0(op: u32) -> u32
    ensures { result ≡ line_0 op }
{
    let dynamic = op / 256 % 2 == 1;
    if dynamic {
        return bit_or_movep(op);
    }
    let fixed = op / 512 % 8 == 4;
    if fixed {
        return bit_static(op);
    }
    immediate(op)
}

// lines 1 to 3: the source's class, and the kind where the destination is An
#[tactic(auto, unfolding(crate::specs::Chain::movement))]
pub fn movement(op: u32, source: u64, address: u32) -> u32
    ensures { result ≡ movement op source address }
{
    let o = op / 64 % 8;
    let absolute = classes::choose(op / 512 % 8 < 2, kinds::MOVE, kinds::ILLEGAL);
    let to_other = classes::choose(o == 7, absolute, kinds::MOVE);
    classes::fit(
        source,
        op,
        classes::choose(o == 1, address, to_other),
        kinds::ILLEGAL,
    )
}

#[tactic(auto, unfolding(crate::specs::Chain::line_5))]
pub fn line_5(op: u32) -> u32
    ensures { result ≡ line_5 op }
{
    let z = op / 64 % 4;
    let adds = op / 256 % 2 == 0;
    let quick = classes::choose(adds, kinds::ADD_Q, kinds::SUB_Q);
    let address = classes::choose(adds, kinds::ADD_Q_A, kinds::SUB_Q_A);
    let sized = classes::choose(z == 0, kinds::ILLEGAL, address);
    let second = classes::fit(
        classes::ADDRESS_REGISTER,
        op,
        classes::choose(z == 3, kinds::DBCC, sized),
        kinds::ILLEGAL,
    );
    classes::fit(
        classes::DATA_ALTERABLE,
        op,
        classes::choose(z == 3, kinds::SCC, quick),
        second,
    )
}

#[tactic(auto, unfolding(crate::specs::Chain::line_6))]
pub fn line_6(op: u32) -> u32
    ensures { result ≡ line_6 op }
{
    let always = classes::choose(op / 256 % 2 == 0, kinds::BRA, kinds::BSR);
    classes::choose(op / 512 % 8 == 0, always, kinds::BCC)
}

// lines 9, 11 and 13: kinds to a data register, to an address register, of the registers' own form and to memory
#[tactic(auto, unfolding(crate::specs::Chain::arithmetic))]
pub fn arithmetic(
    op: u32,
    register: u32,
    address: u32,
    class: u64,
    own: u32,
    place: u64,
    memory: u32,
) -> u32
    ensures { result ≡ arithmetic op register address class own place memory }
{
    let o = op / 64 % 8;
    let to_memory = classes::fit(
        class,
        op,
        own,
        classes::fit(place, op, memory, kinds::ILLEGAL),
    );
    let byte = classes::fit(classes::DATA, op, register, kinds::ILLEGAL);
    let wide = classes::fit(
        classes::EVERY,
        op,
        classes::choose(o % 4 == 3, address, register),
        kinds::ILLEGAL,
    );
    let to_register = classes::choose(o == 0, byte, wide);
    classes::choose((4 <= o) & (o < 7), to_memory, to_register)
}

// lines 8 and 12, bits 8 to 6 from 4 to 6: the decimal kind, the three exchanges and the kind to memory
#[tactic(auto, unfolding(crate::specs::Chain::pair_or_memory))]
fn pair_or_memory(op: u32, decimal: u32, plain: u32, address: u32, mixed: u32, memory: u32) -> u32
    ensures { result ≡ pair_or_memory op decimal plain address mixed memory }
{
    let z = op / 64 % 4;
    let to_memory = classes::fit(classes::MEMORY_ALTERABLE, op, memory, kinds::ILLEGAL);
    let wide = classes::choose(z == 1, address, mixed);
    let upper = classes::fit(
        classes::ADDRESS_REGISTER,
        op,
        classes::choose(z == 0, decimal, wide),
        to_memory,
    );
    let narrow = classes::choose(z == 1, plain, kinds::ILLEGAL);
    classes::fit(
        classes::DATA_REGISTER,
        op,
        classes::choose(z == 0, decimal, narrow),
        upper,
    )
}

// lines 8 and 12: by bits 8 to 6, pairs stands for 4 to 6
#[tactic(auto, unfolding(crate::specs::Chain::logical))]
fn logical(op: u32, register: u32, unsigned: u32, signed: u32, pairs: u32) -> u32
    ensures { result ≡ logical op register unsigned signed pairs }
{
    let o = op / 64 % 8;
    let product = classes::choose(o == 3, unsigned, signed);
    let kind = classes::choose(o < 3, register, product);
    classes::choose(
        (4 <= o) & (o < 7),
        pairs,
        classes::fit(classes::DATA, op, kind, kinds::ILLEGAL),
    )
}

#[tactic(auto, unfolding(crate::specs::Chain::line_14))]
pub fn line_14(op: u32) -> u32
    ensures { result ≡ line_14 op }
{
    let place = classes::fit(
        classes::MEMORY_ALTERABLE,
        op,
        kinds::SHIFT_MEMORY,
        kinds::ILLEGAL,
    );
    let memory = classes::choose(op / 2048 % 2 == 0, place, kinds::ILLEGAL);
    classes::choose(op / 64 % 4 == 3, memory, kinds::SHIFT_REGISTER)
}

#[tactic(auto, unfolding(crate::specs::Chain::line_8))]
pub fn line_8(op: u32) -> u32
    ensures { result ≡ line_8 op }
{
    let pairs = pair_or_memory(
        op,
        kinds::SBCD,
        kinds::ILLEGAL,
        kinds::ILLEGAL,
        kinds::ILLEGAL,
        kinds::OR_TO_MEMORY,
    );
    logical(op, kinds::OR_TO_REGISTER, kinds::DIV_U, kinds::DIV_S, pairs)
}

#[tactic(auto, unfolding(crate::specs::Chain::line_12))]
pub fn line_12(op: u32) -> u32
    ensures { result ≡ line_12 op }
{
    let pairs = pair_or_memory(
        op,
        kinds::ABCD,
        kinds::EXG_DATA,
        kinds::EXG_ADDRESS,
        kinds::EXG_BOTH,
        kinds::AND_TO_MEMORY,
    );
    logical(
        op,
        kinds::AND_TO_REGISTER,
        kinds::MUL_U,
        kinds::MUL_S,
        pairs,
    )
}
