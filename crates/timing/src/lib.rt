// lib.rt - how many clocks an instruction takes, and an exception: Appendix D's rules, each with its line's times as arguments.
// Means: specs/Clocks.antt of the crate clocks.  Laws: ClockLaws, UnrolledLaws there.
// Uses: codes, bits, flags, bus, operand, bitwise, clocks.  Source: [003 D], [K2].
#![tactic(auto)]

ghost use Rattle.std.specs.Prelude.{◌≡◌, map, ◌%◌, ◌<◌};
ghost use Rattle.bus.specs.Bus.{view_of};
ghost use Rattle.clocks.specs.Clocks.{place, operand_clocks, by_long, general, sized, addressed, narrow, paired, peripheral, moved, located, jumped};
ghost use Rattle.clocks.specs.Clocks.{listed, stored, loaded, factor, signed, unsigned, shifted, bit_clocks, branched, counted_by, counted};
ghost use Rattle.clocks.specs.Clocks.{conditional, exception_clocks};

use bus::{Flow, Parts};
use clocks::tables;
use codes::SLOTS;

// The row of a mode.
#[tactic(auto, unfolding(clocks::specs::Clocks::place))]
fn place(mode: u32, n: u32) -> u32
    ensures value { result ≡ place mode n }
    ensures upper_bound { result < 15 }
{
    let plain = mode < 7;
    if plain {
        return mode;
    }
    7 + n % 8
}

// The time of the operation word's effective address.
#[tactic(auto, unfolding(clocks::specs::Clocks::operand_clocks))]
fn operand_clocks(op: u32, long: bool) -> u8
    ensures { result ≡ operand_clocks op long }
{
    tables::operand(place(op / 8 % 8, op % 8) * 2 + bits::bit(long))
}

fn by_long(a: u8, b: u8, long: bool) -> u8
    ensures { result ≡ by_long a b long }
{
    if long {
        return b;
    }
    a
}

// A register is asked for first: it needs no look at D-1.
fn general(a: u8, b: u8, c: u8, d: u8, op: u32, long: bool) -> u32
    ensures value { result ≡ general a b c d op long }
    ensures upper_bound { result < 512 }
{
    let register = op / 16 % 4 == 0;
    if register {
        return bits::wide(by_long(a, b, long));
    }
    let t = operand_clocks(op, long);
    let immediate = op % 64 == 60;
    if immediate {
        return bits::wide(by_long(a, b, long)) + bits::wide(t);
    }
    bits::wide(by_long(c, d, long)) + bits::wide(t)
}

#[tactic(auto, unfolding(clocks::specs::Clocks::sized))]
pub fn sized(a: u8, b: u8, c: u8, d: u8, op: u32) -> u32
    ensures { result ≡ sized a b c d op }
{
    general(a, b, c, d, op, op / 128 % 2 == 1)
}

#[tactic(auto, unfolding(clocks::specs::Clocks::addressed))]
pub fn addressed(a: u8, b: u8, c: u8, d: u8, op: u32) -> u32
    ensures { result ≡ addressed a b c d op }
{
    general(a, b, c, d, op, op / 256 % 2 == 1)
}

#[tactic(auto, unfolding(clocks::specs::Clocks::narrow))]
pub fn narrow(a: u8, c: u8, op: u32) -> u32
    ensures value { result ≡ narrow a c op }
    ensures upper_bound { result < 512 }
{
    general(a, a, c, c, op, false)
}

#[tactic(auto, unfolding(clocks::specs::Clocks::paired))]
pub fn paired(a: u8, b: u8, c: u8, d: u8, op: u32) -> u32
    ensures { result ≡ paired a b c d op }
{
    let long = op / 128 % 2 == 1;
    let registers = op / 8 % 2 == 0;
    if registers {
        return bits::wide(by_long(a, b, long));
    }
    bits::wide(by_long(c, d, long))
}

#[tactic(auto, unfolding(clocks::specs::Clocks::peripheral))]
pub fn peripheral(a: u8, b: u8, op: u32) -> u32
    ensures { result ≡ peripheral a b op }
{
    bits::wide(by_long(a, b, op / 64 % 2 == 1))
}

// MOVE and MOVEA: the times of a byte or word, and 4 more for each of the two that is in memory where it is a long.
pub fn moved(op: u32) -> u32
    ensures { result ≡ moved op }
{
    let a = bits::wide(tables::source(op % 64));
    let b = bits::wide(tables::destination(op / 64 % 64));
    let long = op / 4096 == 2;
    if long {
        let from = a == 0;
        let to = 4 < b;
        return a + bits::bit(!from) * 4 + (b + bits::bit(to) * 4);
    }
    a + b
}

#[tactic(auto, unfolding(clocks::specs::Clocks::located))]
pub fn located(a: u8, op: u32) -> u32
    ensures { result ≡ located a op }
{
    bits::wide(a) + bits::wide(tables::lea(place(op / 8 % 8, op % 8)))
}

#[tactic(auto, unfolding(clocks::specs::Clocks::jumped))]
pub fn jumped(a: u8, op: u32) -> u32
    ensures { result ≡ jumped a op }
{
    bits::wide(a) + bits::wide(tables::jmp(place(op / 8 % 8, op % 8)))
}

#[tactic(auto, unfolding(clocks::specs::Clocks::listed))]
fn listed(a: u8, b: u8, mem: &Parts, op: u32, f: Flow) -> u32
    ensures value { result ≡ listed a b (view_of (map (λ x. x.now) mem.now)) op f }
    ensures upper_bound { result < 4096 }
{
    let w = bus::next_word(mem, f);
    bits::ones_of(w.value) * bits::wide(by_long(a, b, op / 64 % 2 == 1))
}

#[tactic(auto, unfolding(clocks::specs::Clocks::stored))]
pub fn stored(a: u8, b: u8, mem: &Parts, op: u32, f: Flow) -> u32
    ensures { result ≡ stored a b (view_of (map (λ x. x.now) mem.now)) op f }
{
    bits::wide(tables::store(place(op / 8 % 8, op % 8))) + listed(a, b, mem, op, f)
}

#[tactic(auto, unfolding(clocks::specs::Clocks::loaded))]
pub fn loaded(a: u8, b: u8, mem: &Parts, op: u32, f: Flow) -> u32
    ensures { result ≡ loaded a b (view_of (map (λ x. x.now) mem.now)) op f }
{
    bits::wide(tables::load(place(op / 8 % 8, op % 8))) + listed(a, b, mem, op, f)
}

// The word that MULS and MULU take, read once more: these are rare.
#[tactic(auto, unfolding(clocks::specs::Clocks::factor))]
fn factor(r: &[u32; SLOTS], mem: &Parts, op: u32, f: Flow) -> u32
    ensures value { result ≡ factor r.now (view_of (map (λ x. x.now) mem.now)) op f }
    ensures upper_bound { result < 65536 }
{
    let q = operand::locate(r, mem, op / 8 % 8, op % 8, codes::WORD, f);
    let g = q.flow;
    let w = operand::load(r, mem, q, codes::WORD, g);
    w.value % 65536
}

#[tactic(auto, unfolding(clocks::specs::Clocks::signed))]
pub fn signed(a: u8, r: &[u32; SLOTS], mem: &Parts, op: u32, f: Flow) -> u32
    ensures { result ≡ signed a r.now (view_of (map (λ x. x.now) mem.now)) op f }
{
    let x = factor(r, mem, op, f);
    narrow(a, a, op) + bits::ones_of(x ^ (x * 2 % 65536)) * 2
}

#[tactic(auto, unfolding(clocks::specs::Clocks::unsigned))]
pub fn unsigned(a: u8, r: &[u32; SLOTS], mem: &Parts, op: u32, f: Flow) -> u32
    ensures { result ≡ unsigned a r.now (view_of (map (λ x. x.now) mem.now)) op f }
{
    narrow(a, a, op) + bits::ones_of(factor(r, mem, op, f)) * 2
}

#[tactic(auto, unfolding(clocks::specs::Clocks::shifted))]
pub fn shifted(a: u8, b: u8, r: &[u32; SLOTS], op: u32) -> u32
    ensures { result ≡ shifted a b r.now op }
{
    bits::wide(by_long(a, b, op / 128 % 2 == 1)) + bitwise::shift_count(r, op) % 64 * 2
}

#[tactic(auto, unfolding(clocks::specs::Clocks::bit_clocks))]
pub fn bit_clocks(a: u8, op: u32) -> u32
    ensures { result ≡ bit_clocks a op }
{
    let memory = 1 < place(op / 8 % 8, op % 8);
    let t = tables::bit(op / 64 % 4 * 2 + bits::bit(memory));
    bits::wide(a) + bits::wide(t) + bits::wide(operand_clocks(op, false))
}

#[tactic(auto, unfolding(clocks::specs::Clocks::branched))]
pub fn branched(a: u8, b: u8, c: u8, op: u32, f: Flow) -> u32
    ensures { result ≡ branched a b c op f }
{
    let taken = flags::condition(f.sr, op / 256);
    if taken {
        return bits::wide(a);
    }
    let word = op % 256 == 0;
    if word {
        return bits::wide(c);
    }
    bits::wide(b)
}

// DBcc, whose count is known to be 0 or not.
#[tactic(auto, unfolding(clocks::specs::Clocks::counted_by))]
pub fn counted_by(a: u8, b: u8, c: u8, spent: bool, op: u32, f: Flow) -> u32
    ensures { result ≡ counted_by a b c spent op f }
{
    let holds = flags::condition(f.sr, op / 256);
    if holds {
        return bits::wide(a);
    }
    bits::wide(by_long(b, c, spent))
}

#[tactic(auto, unfolding(clocks::specs::Clocks::counted))]
pub fn counted(a: u8, b: u8, c: u8, r: &[u32; SLOTS], op: u32, f: Flow) -> u32
    ensures { result ≡ counted a b c r.now op f }
{
    counted_by(a, b, c, operand::get(r, op % 8) % 65536 == 0, op, f)
}

#[tactic(auto, unfolding(clocks::specs::Clocks::conditional))]
pub fn conditional(a: u8, b: u8, c: u8, op: u32, f: Flow) -> u32
    ensures { result ≡ conditional a b c op f }
{
    let holds = flags::condition(f.sr, op / 256);
    narrow(by_long(a, b, holds), c, op)
}

// The line of a vector, and CHK's operand.
#[tactic(auto, unfolding(clocks::specs::Clocks::exception_clocks))]
pub fn exception_clocks(vec: u32, op: u32) -> u32
    ensures value { result ≡ exception_clocks vec op }
    ensures upper_bound { result < 512 }
{
    let t = tables::exception(vec);
    let bounds = vec == codes::CHK_INSTRUCTION;
    if bounds {
        return bits::wide(t) + bits::wide(operand_clocks(op, false));
    }
    bits::wide(t)
}
