// lib.rt - integer arithmetic, logic and decimal instructions: operands read, the result put or planned, the flags set.
// Means: specs/Integer.antt.  Laws: proofs/IntegerLaws.antt.  Source: [003 3.3], [003 3.4], [003 3.7], [003 B], [01 Operands], [01 Arithmetic].
// Uses: codes, bits, flags, alu, decimal, multiply_divide, bus, operand, plan.
#![tactic(auto)]

ghost use Rattle.std.specs.Prelude.{◌≡◌, map};
ghost use Rattle.bus.specs.Bus.{view_of};
ghost use Rattle.integer.specs.Integer.{binary, address_sum, continuing, unary_result, product_by, quotient_by, only_flags, into_register};
ghost use Rattle.integer.specs.Integer.{onto, alone};
ghost use Rattle.integer.specs.Integer.{to_register, to_memory, immediate_to, compare_immediate, quick_to, quick_sum, to_address};
ghost use Rattle.integer.specs.Integer.{compare_address};
ghost use Rattle.integer.specs.Integer.{paired, compare_memory, unary, extend, test, multiply, divide};

use bus::{Flow, Parts};
use codes::SLOTS;
use flags::Flagged;
use multiply_divide::Divided;
use plan::Plan;

// Destination a and source b, by the number of the operation; the definition lists the numbers.
#[tactic(auto, unfolding(crate::specs::Integer::binary))]
fn binary(which: u32, a: u32, b: u32, old: u32, z: u32) -> Flagged
    ensures { result ≡ binary which a b old z }
{
    match which {
        0 => alu::add(a, b, z),
        1 => alu::subtract(a, b, z),
        2 => alu::compare(a, b, old, z),
        3 => alu::and(a, b, old, z),
        4 => alu::or(a, b, old, z),
        _ => alu::exclusive_or(a, b, old, z),
    }
}

// Address a and source b, 32 bits.
#[tactic(auto, unfolding(crate::specs::Integer::address_sum))]
fn address_sum(which: u32, a: u32, b: u32) -> u32
    ensures { result ≡ address_sum which a b }
{
    match which {
        0 => std::num::wrapping_add_u32(a, b),
        _ => bits::minus(a, b),
    }
}

// Destination a and source b, going on from a part before: ADDX, SUBX, ABCD, SBCD.
#[tactic(auto, unfolding(crate::specs::Integer::continuing))]
fn continuing(which: u32, a: u32, b: u32, old: u32, z: u32) -> Flagged
    ensures { result ≡ continuing which a b old z }
{
    match which {
        0 => alu::add_extended(a, b, old, z),
        1 => alu::subtract_extended(a, b, old, z),
        2 => decimal::decimal_add(a, b, old),
        _ => decimal::decimal_subtract(a, b, old),
    }
}

// NEG, NEGX, NOT, CLR, NBCD, TAS, EXT to size z.
#[tactic(auto, unfolding(crate::specs::Integer::unary_result))]
fn unary_result(which: u32, a: u32, old: u32, z: u32) -> Flagged
    ensures { result ≡ unary_result which a old z }
{
    match which {
        0 => alu::negate(a, z),
        1 => alu::negate_extended(a, old, z),
        2 => alu::complement(a, old, z),
        3 => alu::moved(0, old, z),
        4 => decimal::decimal_negate(a, old),
        5 => alu::tas(a, old),
        _ => alu::extended(a, old, z),
    }
}

// MULS, MULU.
#[tactic(auto, unfolding(crate::specs::Integer::product_by))]
fn product_by(which: u32, a: u32, b: u32, old: u32) -> Flagged
    ensures { result ≡ product_by which a b old }
{
    match which {
        0 => multiply_divide::multiply_signed(a, b, old),
        _ => multiply_divide::multiply_unsigned(a, b, old),
    }
}

// DIVS, DIVU.
#[tactic(auto, unfolding(crate::specs::Integer::quotient_by))]
fn quotient_by(which: u32, a: u32, b: u32, old: u32) -> Divided
    ensures { result ≡ quotient_by which a b old }
{
    match which {
        0 => multiply_divide::divide_signed(a, b, old),
        _ => multiply_divide::divide_unsigned(a, b, old),
    }
}

// Nothing is written but the flags.
#[tactic(auto, unfolding(crate::specs::Integer::only_flags))]
fn only_flags(a: Flagged, f: Flow) -> Plan
    ensures { result ≡ only_flags a f }
{
    plan::nothing(plan::flagged(f, a.ccr))
}

// A result and its flags, to register n.
#[tactic(auto, unfolding(crate::specs::Integer::into_register))]
fn into_register(r: &mut [u32; SLOTS], n: u32, z: u32, a: Flagged, f: Flow) -> Plan
    ensures { record { r = r.new; p = result } ≡ into_register r.old n z a f }
{
    operand::put_low(r, n, z, a.value);
    only_flags(a, f)
}

// ADD, SUB, AND, OR, CMP <ea>,Dn.
#[tactic(auto, unfolding(crate::specs::Integer::taken))]
pub fn to_register(which: u32, r: &mut [u32; SLOTS], mem: &Parts, op: u32, f: Flow) -> Plan
    ensures { record { r = r.new; p = result } ≡ to_register which r.old (view_of (map (λ x. x.now) mem.now)) op f }
{
    let z = op / 64 % 4;
    let n = op / 512 % 8;
    let w = operand::source(r, mem, op / 8 % 8, op % 8, z, f);
    let g = w.flow;
    let a = binary(which, operand::get(r, n), w.value, f.sr, z);
    into_register(r, n, z, a, g)
}

// A source b onto the operand of the operation word's mode.
fn onto(which: u32, b: u32, r: &mut [u32; SLOTS], mem: &Parts, op: u32, f: Flow) -> Plan
    ensures { record { r = r.new; p = result } ≡ onto which b r.old (view_of (map (λ x. x.now) mem.now)) op f }
{
    let z = op / 64 % 4;
    let d = operand::modify(r, mem, op / 8 % 8, op % 8, z, f);
    let q = d.q;
    let a = binary(which, d.value, b, f.sr, z);
    plan::finish(r, q, z, a)
}

// ADD, SUB, AND, OR, EOR Dn,<ea>.
pub fn to_memory(which: u32, r: &mut [u32; SLOTS], mem: &Parts, op: u32, f: Flow) -> Plan
    ensures { record { r = r.new; p = result } ≡ to_memory which r.old (view_of (map (λ x. x.now) mem.now)) op f }
{
    let b = operand::get(r, op / 512 % 8);
    onto(which, b, r, mem, op, f)
}

// ADDI, SUBI, ANDI, ORI, EORI.
#[tactic(auto, unfolding(crate::specs::Integer::immediate_to))]
pub fn immediate_to(which: u32, r: &mut [u32; SLOTS], mem: &Parts, op: u32, f: Flow) -> Plan
    ensures { record { r = r.new; p = result } ≡ immediate_to which r.old (view_of (map (λ x. x.now) mem.now)) op f }
{
    let i = operand::immediate(mem, op / 64 % 4, f);
    let g = i.flow;
    onto(which, i.at, r, mem, op, g)
}

// CMPI.
#[tactic(auto, unfolding(crate::specs::Integer::compare_immediate))]
pub fn compare_immediate(r: &mut [u32; SLOTS], mem: &Parts, op: u32, f: Flow) -> Plan
    ensures { record { r = r.new; p = result } ≡ compare_immediate r.old (view_of (map (λ x. x.now) mem.now)) op f }
{
    let z = op / 64 % 4;
    let i = operand::immediate(mem, z, f);
    let g = i.flow;
    let d = operand::source(r, mem, op / 8 % 8, op % 8, z, g);
    let h = d.flow;
    only_flags(alu::compare(d.value, i.at, f.sr, z), h)
}

// ADDQ, SUBQ to a place that is no address register.
pub fn quick_to(which: u32, r: &mut [u32; SLOTS], mem: &Parts, op: u32, f: Flow) -> Plan
    ensures { record { r = r.new; p = result } ≡ quick_to which r.old (view_of (map (λ x. x.now) mem.now)) op f }
{
    onto(which, plan::quick(op), r, mem, op, f)
}

// ADDQ, SUBQ to An: 32 bits at any size, and no flag.
#[tactic(auto, unfolding(crate::specs::Integer::quick_sum))]
pub fn quick_address(which: u32, r: &mut [u32; SLOTS], op: u32, f: Flow) -> Plan
    ensures { record { r = r.new; p = result } ≡ quick_sum which r.old op f }
{
    let n = codes::A0 + op % 8;
    let a = address_sum(which, operand::get(r, n), plan::quick(op));
    operand::put(r, n, a);
    plan::nothing(f)
}

// ADDA, SUBA: the address register as the source's step left it.
#[tactic(auto, unfolding(crate::specs::Integer::to_address))]
pub fn to_address(which: u32, r: &mut [u32; SLOTS], mem: &Parts, op: u32, f: Flow) -> Plan
    ensures { record { r = r.new; p = result } ≡ to_address which r.old (view_of (map (λ x. x.now) mem.now)) op f }
{
    let z = 1 + op / 256 % 2;
    let n = codes::A0 + op / 512 % 8;
    let w = operand::source(r, mem, op / 8 % 8, op % 8, z, f);
    let g = w.flow;
    let b = bits::sign_extended(w.value, z);
    let a = address_sum(which, operand::get(r, n), b);
    operand::put(r, n, a);
    plan::nothing(g)
}

// CMPA: 32 bits, the address register as the source's step left it.
#[tactic(auto, unfolding(crate::specs::Integer::compare_address))]
pub fn compare_address(r: &mut [u32; SLOTS], mem: &Parts, op: u32, f: Flow) -> Plan
    ensures { record { r = r.new; p = result } ≡ compare_address r.old (view_of (map (λ x. x.now) mem.now)) op f }
{
    let z = 1 + op / 256 % 2;
    let n = codes::A0 + op / 512 % 8;
    let w = operand::source(r, mem, op / 8 % 8, op % 8, z, f);
    let g = w.flow;
    let b = bits::sign_extended(w.value, z);
    only_flags(alu::compare(operand::get(r, n), b, f.sr, codes::LONG), g)
}

// ADDX, SUBX, ABCD, SBCD: Dy,Dx or -(Ay),-(Ax).
#[tactic(auto, unfolding(crate::specs::Integer::paired))]
pub fn paired(which: u32, r: &mut [u32; SLOTS], mem: &Parts, op: u32, f: Flow) -> Plan
    ensures { record { r = r.new; p = result } ≡ paired which r.old (view_of (map (λ x. x.now) mem.now)) op f }
{
    let z = op / 64 % 4;
    let mode = op / 8 % 2 * codes::PREDECREMENT;
    let s = operand::source(r, mem, mode, op % 8, z, f);
    let g = s.flow;
    let d = operand::modify(r, mem, mode, op / 512 % 8, z, g);
    let q = d.q;
    let a = continuing(which, d.value, s.value, f.sr, z);
    plan::finish(r, q, z, a)
}

// CMPM (Ay)+,(Ax)+.
#[tactic(auto, unfolding(crate::specs::Integer::compare_memory))]
pub fn compare_memory(r: &mut [u32; SLOTS], mem: &Parts, op: u32, f: Flow) -> Plan
    ensures { record { r = r.new; p = result } ≡ compare_memory r.old (view_of (map (λ x. x.now) mem.now)) op f }
{
    let z = op / 64 % 4;
    let s = operand::source(r, mem, codes::POSTINCREMENT, op % 8, z, f);
    let g = s.flow;
    let d = operand::source(r, mem, codes::POSTINCREMENT, op / 512 % 8, z, g);
    let h = d.flow;
    only_flags(alu::compare(d.value, s.value, f.sr, z), h)
}

// The operand of the operation word's mode, alone.
fn alone(which: u32, z: u32, r: &mut [u32; SLOTS], mem: &Parts, op: u32, f: Flow) -> Plan
    ensures { record { r = r.new; p = result } ≡ alone which z r.old (view_of (map (λ x. x.now) mem.now)) op f }
{
    let d = operand::modify(r, mem, op / 8 % 8, op % 8, z, f);
    let q = d.q;
    let a = unary_result(which, d.value, f.sr, z);
    plan::finish(r, q, z, a)
}

// NEG, NEGX, NOT, CLR, NBCD, TAS. TAS, a byte, has 3 for its size.
pub fn unary(which: u32, r: &mut [u32; SLOTS], mem: &Parts, op: u32, f: Flow) -> Plan
    ensures { record { r = r.new; p = result } ≡ unary which r.old (view_of (map (λ x. x.now) mem.now)) op f }
{
    alone(which, op / 64 % 4 % 3, r, mem, op, f)
}

// EXT: the operation word's mode is 0, a data register.
pub fn extend(r: &mut [u32; SLOTS], mem: &Parts, op: u32, f: Flow) -> Plan
    ensures { record { r = r.new; p = result } ≡ extend r.old (view_of (map (λ x. x.now) mem.now)) op f }
{
    alone(codes::EXTEND, 1 + op / 64 % 2, r, mem, op, f)
}

// TST.
pub fn test(r: &mut [u32; SLOTS], mem: &Parts, op: u32, f: Flow) -> Plan
    ensures { record { r = r.new; p = result } ≡ test r.old (view_of (map (λ x. x.now) mem.now)) op f }
{
    let z = op / 64 % 4;
    let w = operand::source(r, mem, op / 8 % 8, op % 8, z, f);
    let g = w.flow;
    only_flags(alu::moved(w.value, f.sr, z), g)
}

// MULS, MULU <ea>,Dn.
#[tactic(auto, unfolding(crate::specs::Integer::taken))]
pub fn multiply(which: u32, r: &mut [u32; SLOTS], mem: &Parts, op: u32, f: Flow) -> Plan
    ensures { record { r = r.new; p = result } ≡ multiply which r.old (view_of (map (λ x. x.now) mem.now)) op f }
{
    let n = op / 512 % 8;
    let w = operand::source(r, mem, op / 8 % 8, op % 8, codes::WORD, f);
    let g = w.flow;
    let a = product_by(which, operand::get(r, n), w.value, f.sr);
    into_register(r, n, codes::LONG, a, g)
}

// DIVS, DIVU: a zero divisor traps, with the flags set and the source's step kept.
#[tactic(auto, unfolding(crate::specs::Integer::divide))]
pub fn divide(which: u32, r: &mut [u32; SLOTS], mem: &Parts, op: u32, f: Flow) -> Plan
    ensures { record { r = r.new; p = result } ≡ divide which r.old (view_of (map (λ x. x.now) mem.now)) op f }
{
    let n = op / 512 % 8;
    let w = operand::source(r, mem, op / 8 % 8, op % 8, codes::WORD, f);
    let g = w.flow;
    let d = quotient_by(which, operand::get(r, n), w.value, f.sr);
    let h = plan::flagged(g, d.ccr);
    let zero = d.zero;
    if zero {
        return plan::trapping(codes::ZERO_DIVIDE, h);
    }
    operand::put(r, n, d.value);
    plan::nothing(h)
}
