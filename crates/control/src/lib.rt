// lib.rt - program control: Bcc, BRA, BSR, DBcc, Scc, JMP, JSR, NOP, RTR, RTS.
// Means: specs/Control.antt.  Laws: proofs/ControlLaws.antt.
// Uses: codes, bits, flags, bus, operand, plan.  Source: [003 3.8], [003 B], [01 step 6], [01 Operands], [01 Easy slips].
#![tactic(auto)]

ghost use Rattle.std.specs.Prelude.{◌≡◌, map};
ghost use Rattle.bus.specs.Bus.{view_of};
ghost use Rattle.plan.specs.Plans.{nothing};
ghost use Rattle.control.specs.Control.{displacement, jump_when, counted, branch_plan, branch_subroutine, decrement_branch, set_condition};
ghost use Rattle.control.specs.Control.{jump_plan, jump_subroutine, return_restore, return_subroutine};

use bus::{Fetched, Flow, Parts};
use codes::SLOTS;
use flags::Flagged;
use plan::Plan;

// The displacement of a branch: the operation word's byte, $FF too; the next word where that is 0.
fn displacement(mem: &Parts, op: u32, f: Flow) -> Fetched
    ensures { result ≡ displacement (view_of (map (λ x. x.now) mem.now)) op f }
{
    let none = op % 256 == 0;
    if none {
        let w = bus::next_word(mem, f);
        let g = w.flow;
        return Fetched {
            value: bits::sign_word(w.value),
            flow: g,
        };
    }
    Fetched {
        value: bits::sign_byte(op),
        flow: f,
    }
}

fn jump_when(taken: bool, f: Flow, to: u32) -> Plan
    ensures { result ≡ jump_when taken f to }
{
    if taken {
        return plan::nothing(plan::jump(f, to));
    }
    plan::nothing(f)
}

// Bcc and BRA.
pub fn branch(mem: &Parts, op: u32, f: Flow) -> Plan
    ensures { result ≡ branch_plan (view_of (map (λ x. x.now) mem.now)) op f }
{
    let w = displacement(mem, op, f);
    let g = w.flow;
    let taken = flags::condition(f.sr, op / 256);
    jump_when(taken, g, std::num::wrapping_add_u32(f.pc, w.value))
}

// BSR.
pub fn branch_subroutine(r: &mut [u32; SLOTS], mem: &Parts, op: u32, f: Flow) -> Plan
    ensures { record { r = r.new; p = result } ≡ branch_subroutine r.old (view_of (map (λ x. x.now) mem.now)) op f }
{
    let w = displacement(mem, op, f);
    let g = w.flow;
    let h = plan::jump(g, std::num::wrapping_add_u32(f.pc, w.value));
    plan::push(r, g.pc, h)
}

// The counter of DBcc less 1: a word, and no more than a word of the register changes.
fn counted(r: &[u32; SLOTS], n: u32) -> u32
    ensures { result ≡ counted r.now n }
{
    bits::cut(bits::minus(operand::get(r, n), 1) as u64, codes::WORD)
}

// DBcc.
pub fn decrement_branch(r: &mut [u32; SLOTS], mem: &Parts, op: u32, f: Flow) -> Plan
    ensures { record { r = r.new; p = result } ≡ decrement_branch r.old (view_of (map (λ x. x.now) mem.now)) op f }
{
    let w = bus::next_word(mem, f);
    let g = w.flow;
    let ended = flags::condition(f.sr, op / 256);
    if ended {
        return plan::nothing(g);
    }
    let c = counted(r, op % 8);
    operand::put_low(r, op % 8, codes::WORD, c);
    let spent = c == 0xFFFF;
    jump_when(
        !spent,
        g,
        std::num::wrapping_add_u32(f.pc, bits::sign_word(w.value)),
    )
}

// Scc. The flags stay as they are.
pub fn set_condition(r: &mut [u32; SLOTS], mem: &Parts, op: u32, f: Flow) -> Plan
    ensures { record { r = r.new; p = result } ≡ set_condition r.old (view_of (map (λ x. x.now) mem.now)) op f }
{
    let b = operand::modify(r, mem, op / 8 % 8, op % 8, codes::BYTE, f);
    let q = b.q;
    let holds = flags::condition(f.sr, op / 256);
    let a = Flagged {
        value: bits::bit(holds) * 0xFF,
        ccr: f.sr,
    };
    plan::finish(r, q, codes::BYTE, a)
}

// JMP.
pub fn jump_to(r: &[u32; SLOTS], mem: &Parts, op: u32, f: Flow) -> Plan
    ensures { result ≡ jump_plan r.now (view_of (map (λ x. x.now) mem.now)) op f }
{
    let q = operand::locate(r, mem, op / 8 % 8, op % 8, codes::LONG, f);
    let g = q.flow;
    plan::nothing(plan::jump(g, q.at))
}

// JSR. The address is formed before A7 falls.
pub fn jump_subroutine(r: &mut [u32; SLOTS], mem: &Parts, op: u32, f: Flow) -> Plan
    ensures { record { r = r.new; p = result } ≡ jump_subroutine r.old (view_of (map (λ x. x.now) mem.now)) op f }
{
    let q = operand::locate(r, mem, op / 8 % 8, op % 8, codes::LONG, f);
    let g = q.flow;
    let h = plan::jump(g, q.at);
    plan::push(r, g.pc, h)
}

// NOP.
pub fn no_operation(f: Flow) -> Plan
    ensures { result ≡ nothing f }
{
    plan::nothing(f)
}

// RTR. Of the word only the flags are taken; the jump comes before SR is written.
pub fn return_restore(r: &mut [u32; SLOTS], mem: &Parts, op: u32, f: Flow) -> Plan
    ensures { record { r = r.new; p = result } ≡ return_restore r.old (view_of (map (λ x. x.now) mem.now)) op f }
{
    let c = operand::source(
        r,
        mem,
        codes::POSTINCREMENT,
        codes::STACK_POINTER,
        codes::WORD,
        f,
    );
    let g = c.flow;
    let t = operand::source(
        r,
        mem,
        codes::POSTINCREMENT,
        codes::STACK_POINTER,
        codes::LONG,
        g,
    );
    let h = t.flow;
    plan::nothing(plan::flagged(plan::jump(h, t.value), c.value))
}

// RTS.
pub fn return_subroutine(r: &mut [u32; SLOTS], mem: &Parts, op: u32, f: Flow) -> Plan
    ensures { record { r = r.new; p = result } ≡ return_subroutine r.old (view_of (map (λ x. x.now) mem.now)) op f }
{
    let t = operand::source(
        r,
        mem,
        codes::POSTINCREMENT,
        codes::STACK_POINTER,
        codes::LONG,
        f,
    );
    let g = t.flow;
    plan::nothing(plan::jump(g, t.value))
}
