// lib.rt - shift and rotate instructions, and those on single bits: operands read, the result put or planned, the flags set.
// Means: specs/Bitwise.antt.  Laws: proofs/BitwiseLaws.antt.
// Uses: codes, bits, flags, alu, shift, bus, operand, plan.  Source: [003 3.5], [003 3.6], [003 B], [01 Arithmetic].
#![tactic(auto)]

ghost use Rattle.std.specs.Prelude.{◌≡◌, map};
ghost use Rattle.bus.specs.Bus.{view_of};
ghost use Rattle.bitwise.specs.Bitwise.{shift_count, shift_place, shift_register, shift_memory, bit_size, bit_place, bit_dynamic, bit_static};

use bus::{Flow, Parts};
use codes::SLOTS;
use plan::Plan;

// How many places: three bits of the operation word, or the data register that they name.
#[tactic(auto, unfolding(crate::specs::Bitwise::shift_count))]
pub fn shift_count(r: &[u32; SLOTS], op: u32) -> u32
    ensures { result ≡ shift_count r.now op }
{
    let held = op / 32 % 2 == 1;
    if held {
        return operand::get(r, op / 512 % 8);
    }
    plan::quick(op)
}

// An operand of size z is moved n places.
#[tactic(auto, unfolding(crate::specs::Bitwise::shift_place))]
fn shift_place(
    k: u32,
    n: u32,
    mode: u32,
    z: u32,
    r: &mut [u32; SLOTS],
    mem: &Parts,
    op: u32,
    f: Flow,
) -> Plan
    ensures { record { r = r.new; p = result } ≡ shift_place k n mode z r.old (view_of (map (λ x. x.now) mem.now)) op f }
{
    let left = op / 256 % 2 == 1;
    let d = operand::modify(r, mem, mode, op % 8, z, f);
    let q = d.q;
    let a = shift::shift(k, left, d.value, n, z, f.sr);
    plan::finish(r, q, z, a)
}

// A data register, at any size.
pub fn shift_register(r: &mut [u32; SLOTS], mem: &Parts, op: u32, f: Flow) -> Plan
    ensures { record { r = r.new; p = result } ≡ shift_register r.old (view_of (map (λ x. x.now) mem.now)) op f }
{
    let n = shift_count(r, op);
    shift_place(op / 8 % 4, n, codes::IN_DATA, op / 64 % 4, r, mem, op, f)
}

// A word in memory, one place.
pub fn shift_memory(r: &mut [u32; SLOTS], mem: &Parts, op: u32, f: Flow) -> Plan
    ensures { record { r = r.new; p = result } ≡ shift_memory r.old (view_of (map (λ x. x.now) mem.now)) op f }
{
    shift_place(op / 512 % 4, 1, op / 8 % 8, codes::WORD, r, mem, op, f)
}

// A data register is taken as a long, all else as a byte.
#[tactic(auto, unfolding(crate::specs::Bitwise::bit_size))]
fn bit_size(op: u32) -> u32
    ensures { result ≡ bit_size op }
{
    let held = op / 8 % 8 == codes::IN_DATA;
    bits::bit(held) * codes::LONG
}

// BTST, BCHG, BCLR, BSET of bit n; BTST writes nothing.
#[tactic(auto, unfolding(crate::specs::Bitwise::bit_place))]
fn bit_place(n: u32, r: &mut [u32; SLOTS], mem: &Parts, op: u32, f: Flow) -> Plan
    ensures { record { r = r.new; p = result } ≡ bit_place n r.old (view_of (map (λ x. x.now) mem.now)) op f }
{
    let z = bit_size(op);
    let k = op / 64 % 4;
    let d = operand::modify(r, mem, op / 8 % 8, op % 8, z, f);
    let q = d.q;
    let a = alu::bit_operation(d.value, n, k, f.sr, z);
    let asked = k == 0;
    if asked {
        let g = q.flow;
        return plan::nothing(plan::flagged(g, a.ccr));
    }
    plan::finish(r, q, z, a)
}

// The bit's number is in a data register.
pub fn bit_dynamic(r: &mut [u32; SLOTS], mem: &Parts, op: u32, f: Flow) -> Plan
    ensures { record { r = r.new; p = result } ≡ bit_dynamic r.old (view_of (map (λ x. x.now) mem.now)) op f }
{
    let n = operand::get(r, op / 512 % 8);
    bit_place(n, r, mem, op, f)
}

// The bit's number is in the word after the operation word.
#[tactic(auto, unfolding(crate::specs::Bitwise::bit_static))]
pub fn bit_static(r: &mut [u32; SLOTS], mem: &Parts, op: u32, f: Flow) -> Plan
    ensures { record { r = r.new; p = result } ≡ bit_static r.old (view_of (map (λ x. x.now) mem.now)) op f }
{
    let w = bus::next_word(mem, f);
    let g = w.flow;
    bit_place(w.value, r, mem, op, g)
}
