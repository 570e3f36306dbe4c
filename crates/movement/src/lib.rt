// lib.rt - the instructions that move data: MOVE, MOVEA, MOVEQ, LEA, PEA, EXG, SWAP, LINK, UNLK, MOVEP. MOVEM is crate movem.
// Means: specs/Movement.antt.  Laws: proofs/MovementLaws.antt.
// Uses: codes, bits, bus, operand, flags, alu, plan.  Source: [003 3.2], [003 B], [01 step 6], [01 Operands].
#![tactic(auto)]

ghost use Rattle.std.specs.Prelude.{◌≡◌, ◌+◌, ◌*◌, ◌/◌, ◌%◌, ◌<◌, map};
ghost use Rattle.bits.specs.Bits.{minus};
ghost use Rattle.bus.specs.Bus.{view_of};
ghost use Rattle.operand.specs.Operands.{get, put};
ghost use Rattle.movement.specs.Movement.{move_size, move_operands, move_data, move_address, move_quick, load_address, push_address, exchange};
ghost use Rattle.movement.specs.Movement.{exchange_data, exchange_address, exchange_both, swap, link, unlink, every_other_word, every_other};
ghost use Rattle.movement.specs.Movement.{movep_to_register, movep_to_memory};

use bus::{Fetched, Flow, Parts};
use codes::SLOTS;
use operand::{Both, Operand};
use plan::Plan;

// MOVE and MOVEA say their size in another code than the rest.
#[tactic(auto, unfolding(crate::specs::Movement::move_size))]
fn move_size(op: u32) -> u32
    ensures { result ≡ move_size op }
{
    let byte = op / 4096 == 1;
    let word = op / 4096 == 3;
    if byte {
        return codes::BYTE;
    }
    if word {
        return codes::WORD;
    }
    codes::LONG
}

// The source's value, and the destination's place with its register stepped. All extension words come before the source is read, and
// the source's step before the destination's address. The source is read before the destination's step: MOVE.L A0,-(A0) stores the
// first value.
#[tactic(auto, unfolding(crate::specs::Movement::move_operands))]
fn move_operands(r: &mut [u32; SLOTS], mem: &Parts, op: u32, z: u32, f: Flow) -> Both
    ensures { record { r = r.new; b = result } ≡ move_operands r.old (view_of (map (λ x. x.now) mem.now)) op z f }
{
    let s = operand::target(r, mem, op / 8 % 8, op % 8, z, f);
    let sf = s.flow;
    let q = operand::locate(r, mem, op / 64 % 8, op / 512 % 8, z, sf);
    let qf = q.flow;
    let w = operand::load(r, mem, s, z, qf);
    let wf = w.flow;
    operand::put(r, q.reg, q.step);
    let d = Operand {
        kind: q.kind,
        at: q.at,
        access: q.access,
        reg: q.reg,
        step: q.step,
        flow: wf,
    };
    Both {
        value: w.value,
        q: d,
    }
}

#[tactic(auto, unfolding(crate::specs::Movement::move_data))]
pub fn move_data(r: &mut [u32; SLOTS], mem: &Parts, op: u32, f: Flow) -> Plan
    ensures { record { r = r.new; p = result } ≡ move_data r.old (view_of (map (λ x. x.now) mem.now)) op f }
{
    let z = move_size(op);
    let b = move_operands(r, mem, op, z, f);
    let q = b.q;
    plan::finish(r, q, z, alu::moved(b.value, f.sr, z))
}

#[tactic(auto, unfolding(crate::specs::Movement::move_address))]
pub fn move_address(r: &mut [u32; SLOTS], mem: &Parts, op: u32, f: Flow) -> Plan
    ensures { record { r = r.new; p = result } ≡ move_address r.old (view_of (map (λ x. x.now) mem.now)) op f }
{
    let z = move_size(op);
    let w = operand::source(r, mem, op / 8 % 8, op % 8, z, f);
    let g = w.flow;
    operand::put(r, codes::A0 + op / 512 % 8, bits::sign_extended(w.value, z));
    plan::nothing(g)
}

#[tactic(auto, unfolding(crate::specs::Movement::move_quick))]
pub fn move_quick(r: &mut [u32; SLOTS], mem: &Parts, op: u32, f: Flow) -> Plan
    ensures { record { r = r.new; p = result } ≡ move_quick r.old (view_of (map (λ x. x.now) mem.now)) op f }
{
    let a = alu::moved(bits::sign_byte(op), f.sr, codes::LONG);
    operand::put(r, op / 512 % 8, a.value);
    plan::nothing(plan::flagged(f, a.ccr))
}

#[tactic(auto, unfolding(crate::specs::Movement::load_address))]
pub fn load_address(r: &mut [u32; SLOTS], mem: &Parts, op: u32, f: Flow) -> Plan
    ensures { record { r = r.new; p = result } ≡ load_address r.old (view_of (map (λ x. x.now) mem.now)) op f }
{
    let q = operand::locate(r, mem, op / 8 % 8, op % 8, codes::LONG, f);
    let g = q.flow;
    operand::put(r, codes::A0 + op / 512 % 8, q.at);
    plan::nothing(g)
}

// The address is formed before A7 falls.
#[tactic(auto, unfolding(crate::specs::Movement::push_address))]
pub fn push_address(r: &mut [u32; SLOTS], mem: &Parts, op: u32, f: Flow) -> Plan
    ensures { record { r = r.new; p = result } ≡ push_address r.old (view_of (map (λ x. x.now) mem.now)) op f }
{
    let q = operand::locate(r, mem, op / 8 % 8, op % 8, codes::LONG, f);
    let g = q.flow;
    plan::push(r, q.at, g)
}

// EXG of registers i and j.
#[tactic(auto, unfolding(crate::specs::Movement::exchange))]
fn exchange(r: &mut [u32; SLOTS], i: u32, j: u32, f: Flow) -> Plan
    ensures { record { r = r.new; p = result } ≡ exchange r.old i j f }
{
    let x = operand::get(r, i);
    let y = operand::get(r, j);
    operand::put(r, i, y);
    operand::put(r, j, x);
    plan::nothing(f)
}

pub fn exchange_data(r: &mut [u32; SLOTS], mem: &Parts, op: u32, f: Flow) -> Plan
    ensures { record { r = r.new; p = result } ≡ exchange_data r.old (view_of (map (λ x. x.now) mem.now)) op f }
{
    exchange(r, op / 512 % 8, op % 8, f)
}

pub fn exchange_address(r: &mut [u32; SLOTS], mem: &Parts, op: u32, f: Flow) -> Plan
    ensures { record { r = r.new; p = result } ≡ exchange_address r.old (view_of (map (λ x. x.now) mem.now)) op f }
{
    exchange(r, codes::A0 + op / 512 % 8, codes::A0 + op % 8, f)
}

pub fn exchange_both(r: &mut [u32; SLOTS], mem: &Parts, op: u32, f: Flow) -> Plan
    ensures { record { r = r.new; p = result } ≡ exchange_both r.old (view_of (map (λ x. x.now) mem.now)) op f }
{
    exchange(r, op / 512 % 8, codes::A0 + op % 8, f)
}

#[tactic(auto, unfolding(crate::specs::Movement::swap))]
pub fn swap(r: &mut [u32; SLOTS], mem: &Parts, op: u32, f: Flow) -> Plan
    ensures { record { r = r.new; p = result } ≡ swap r.old (view_of (map (λ x. x.now) mem.now)) op f }
{
    let a = alu::swapped(operand::get(r, op % 8), f.sr);
    operand::put(r, op % 8, a.value);
    plan::nothing(plan::flagged(f, a.ccr))
}

// A7 falls by 4, and is answered.
fn lowered(r: &mut [u32; SLOTS]) -> u32
    ensures value { result ≡ minus (get r.old 15) 4 }
    ensures r_after { r.new ≡ put r.old 15 result }
{
    let a = bits::minus(operand::get(r, codes::A7), 4);
    operand::put(r, codes::A7, a);
    a
}

// What is stored is An after A7 fell: LINK A7 stores A7 already lowered.
#[tactic(auto, unfolding(crate::specs::Movement::link))]
pub fn link(r: &mut [u32; SLOTS], mem: &Parts, op: u32, f: Flow) -> Plan
    ensures { record { r = r.new; p = result } ≡ link r.old (view_of (map (λ x. x.now) mem.now)) op f }
{
    let w = bus::next_word(mem, f);
    let g = w.flow;
    let a = lowered(r);
    let v = operand::get(r, codes::A0 + op % 8);
    operand::put(r, codes::A0 + op % 8, a);
    operand::put(
        r,
        codes::A7,
        std::num::wrapping_add_u32(a, bits::sign_word(w.value)),
    );
    plan::writing(codes::LONG, a, v, g)
}

// A7 is put before An: UNLK A7 leaves the long that was read.
#[tactic(auto, unfolding(crate::specs::Movement::unlink))]
pub fn unlink(r: &mut [u32; SLOTS], mem: &Parts, op: u32, f: Flow) -> Plan
    ensures { record { r = r.new; p = result } ≡ unlink r.old (view_of (map (λ x. x.now) mem.now)) op f }
{
    let a = operand::get(r, codes::A0 + op % 8);
    let w = bus::read_long(mem, a, codes::DATA_READ, f);
    let g = w.flow;
    operand::put(r, codes::A7, std::num::wrapping_add_u32(a, 4));
    operand::put(r, codes::A0 + op % 8, w.value);
    plan::nothing(g)
}

// The bytes at a and a + 2 as a word.
#[tactic(auto, unfolding(crate::specs::Movement::every_other_word))]
fn every_other_word(mem: &Parts, a: u32, f: Flow) -> Fetched
    ensures value { result ≡ every_other_word (view_of (map (λ x. x.now) mem.now)) a f }
    ensures value_bound { result.value < 65536 }
{
    let h = bus::read_byte(mem, a, codes::DATA_READ, f);
    let hf = h.flow;
    let l = bus::read_byte(mem, std::num::wrapping_add_u32(a, 2), codes::DATA_READ, hf);
    let lf = l.flow;
    Fetched {
        value: h.value * 256 + l.value,
        flow: lf,
    }
}

// A word or, if z is 2, a long of bytes that stand at every other address from a on.
#[tactic(auto, unfolding(crate::specs::Movement::every_other))]
fn every_other(mem: &Parts, a: u32, z: u32, f: Flow) -> Fetched
    ensures { result ≡ every_other (view_of (map (λ x. x.now) mem.now)) a z f }
{
    let h = every_other_word(mem, a, f);
    let hf = h.flow;
    let long = z == codes::LONG;
    if long {
        let l = every_other_word(mem, std::num::wrapping_add_u32(a, 4), hf);
        let lf = l.flow;
        return Fetched {
            value: h.value * 65536 + l.value,
            flow: lf,
        };
    }
    h
}

#[tactic(auto, unfolding(crate::specs::Movement::movep_to_register))]
pub fn movep_to_register(r: &mut [u32; SLOTS], mem: &Parts, op: u32, f: Flow) -> Plan
    ensures { record { r = r.new; p = result } ≡ movep_to_register r.old (view_of (map (λ x. x.now) mem.now)) op f }
{
    let z = 1 + op / 64 % 2;
    let q = operand::locate(r, mem, codes::DISPLACED, op % 8, z, f);
    let qf = q.flow;
    let w = every_other(mem, q.at, z, qf);
    let wf = w.flow;
    operand::put_low(r, op / 512 % 8, z, w.value);
    plan::nothing(wf)
}

#[tactic(auto, unfolding(crate::specs::Movement::movep_to_memory))]
pub fn movep_to_memory(r: &mut [u32; SLOTS], mem: &Parts, op: u32, f: Flow) -> Plan
    ensures { record { r = r.new; p = result } ≡ movep_to_memory r.old (view_of (map (λ x. x.now) mem.now)) op f }
{
    let z = 1 + op / 64 % 2;
    let q = operand::locate(r, mem, codes::DISPLACED, op % 8, z, f);
    let g = q.flow;
    let v = bits::cut(operand::get(r, op / 512 % 8) as u64, z);
    plan::writing(codes::EVERY_OTHER + op / 64 % 2, q.at, v, g)
}
