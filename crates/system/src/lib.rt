// lib.rt - system control: immediates and moves to and from SR, CCR and USP, RESET, RTE, STOP, TRAP, TRAPV, CHK.
// Means: specs/System.antt.  Laws: proofs/SystemLaws.antt.
// Uses: codes, bits, flags, alu, bus, operand, plan.  Source: [003 3.9], [003 B], [01 step 2] to [01 step 7]. Privilege is the caller's.
#![tactic(auto)]

ghost use Rattle.std.specs.Prelude.{◌≡◌, map, ◌+◌, ◌%◌};
ghost use Rattle.bus.specs.Bus.{view_of};
ghost use Rattle.plan.specs.Plans.{nothing};
ghost use Rattle.system.specs.System.{logic, immediate_to_ccr_plan, immediate_to_sr_plan, move_from_sr, move_to_ccr, move_to_sr};
ghost use Rattle.system.specs.System.{register_moved, return_exception, stop_plan, trap_plan, trap_overflow_plan, check_bounds};

use bus::{Flow, Parts};
use codes::SLOTS;
use flags::Flagged;
use plan::Plan;

// AND, OR, and EOR as the last.
#[tactic(auto, unfolding(crate::specs::System::logic))]
fn logic(which: u32, a: u32, b: u32) -> u32
    ensures { result ≡ logic which a b }
{
    let and = which == codes::AND;
    let or = which == codes::OR;
    if and {
        return a & b;
    }
    if or {
        return a | b;
    }
    a ^ b
}

// ANDI, ORI, EORI to CCR.
#[tactic(auto, unfolding(crate::specs::System::immediate_to_ccr_plan))]
pub fn immediate_to_ccr(which: u32, mem: &Parts, f: Flow) -> Plan
    ensures { result ≡ immediate_to_ccr_plan which (view_of (map (λ x. x.now) mem.now)) f }
{
    let w = bus::next_word(mem, f);
    let g = w.flow;
    plan::nothing(plan::flagged(g, logic(which, f.sr, w.value)))
}

// ANDI, ORI, EORI to SR.
#[tactic(auto, unfolding(crate::specs::System::immediate_to_sr_plan))]
pub fn immediate_to_sr(which: u32, mem: &Parts, f: Flow) -> Plan
    ensures { result ≡ immediate_to_sr_plan which (view_of (map (λ x. x.now) mem.now)) f }
{
    let w = bus::next_word(mem, f);
    let g = w.flow;
    plan::nothing(bus::with_sr(g, logic(which, f.sr, w.value)))
}

// MOVE from SR. The flags stay as they are.
#[tactic(auto, unfolding(crate::specs::System::move_from_sr))]
pub fn move_from_sr(r: &mut [u32; SLOTS], mem: &Parts, op: u32, f: Flow) -> Plan
    ensures { record { r = r.new; p = result } ≡ move_from_sr r.old (view_of (map (λ x. x.now) mem.now)) op f }
{
    let b = operand::modify(r, mem, op / 8 % 8, op % 8, codes::WORD, f);
    let q = b.q;
    let a = Flagged {
        value: f.sr,
        ccr: f.sr,
    };
    plan::finish(r, q, codes::WORD, a)
}

// MOVE to CCR.
#[tactic(auto, unfolding(crate::specs::System::move_to_ccr))]
pub fn move_to_ccr(r: &mut [u32; SLOTS], mem: &Parts, op: u32, f: Flow) -> Plan
    ensures { record { r = r.new; p = result } ≡ move_to_ccr r.old (view_of (map (λ x. x.now) mem.now)) op f }
{
    let w = operand::source(r, mem, op / 8 % 8, op % 8, codes::WORD, f);
    let g = w.flow;
    plan::nothing(plan::flagged(g, w.value))
}

// MOVE to SR.
#[tactic(auto, unfolding(crate::specs::System::move_to_sr))]
pub fn move_to_sr(r: &mut [u32; SLOTS], mem: &Parts, op: u32, f: Flow) -> Plan
    ensures { record { r = r.new; p = result } ≡ move_to_sr r.old (view_of (map (λ x. x.now) mem.now)) op f }
{
    let w = operand::source(r, mem, op / 8 % 8, op % 8, codes::WORD, f);
    let g = w.flow;
    plan::nothing(bus::with_sr(g, w.value))
}

// MOVE An,USP.
pub fn move_to_usp(r: &mut [u32; SLOTS], op: u32, f: Flow) -> Plan
    ensures { record { r = r.new; p = result } ≡ register_moved 16 (8 + op % 8) r.old f }
{
    let a = operand::get(r, codes::A0 + op % 8);
    operand::put(r, codes::USER_STACK, a);
    plan::nothing(f)
}

// MOVE USP,An.
pub fn move_from_usp(r: &mut [u32; SLOTS], op: u32, f: Flow) -> Plan
    ensures { record { r = r.new; p = result } ≡ register_moved (8 + op % 8) 16 r.old f }
{
    let a = operand::get(r, codes::USER_STACK);
    operand::put(r, codes::A0 + op % 8, a);
    plan::nothing(f)
}

// RESET. There are no devices.
pub fn reset_devices(f: Flow) -> Plan
    ensures { result ≡ nothing f }
{
    plan::nothing(f)
}

// RTE. The jump comes before SR is written.
#[tactic(auto, unfolding(crate::specs::System::return_exception))]
pub fn return_exception(r: &mut [u32; SLOTS], mem: &Parts, op: u32, f: Flow) -> Plan
    ensures { record { r = r.new; p = result } ≡ return_exception r.old (view_of (map (λ x. x.now) mem.now)) op f }
{
    let s = operand::source(
        r,
        mem,
        codes::POSTINCREMENT,
        codes::STACK_POINTER,
        codes::WORD,
        f,
    );
    let g = s.flow;
    let t = operand::source(
        r,
        mem,
        codes::POSTINCREMENT,
        codes::STACK_POINTER,
        codes::LONG,
        g,
    );
    let h = t.flow;
    plan::nothing(bus::with_sr(plan::jump(h, t.value), s.value))
}

// STOP. A word with S clear is refused, once it is read.
#[tactic(auto, unfolding(crate::specs::System::stop_plan))]
pub fn stop(mem: &Parts, f: Flow) -> Plan
    ensures { result ≡ stop_plan (view_of (map (λ x. x.now) mem.now)) f }
{
    let w = bus::next_word(mem, f);
    let g = w.flow;
    let supervisor = w.value / codes::SUPERVISOR % 2 == 1;
    if supervisor {
        return plan::stopping(bus::with_sr(g, w.value));
    }
    plan::refusing(codes::PRIVILEGE_VIOLATION, bits::minus(f.pc, 2), g)
}

// TRAP.
pub fn trap(op: u32, f: Flow) -> Plan
    ensures { result ≡ trap_plan op f }
{
    plan::trapping(codes::FIRST_TRAP + op % 16, f)
}

// TRAPV.
#[tactic(auto, unfolding(crate::specs::System::trap_overflow_plan))]
pub fn trap_overflow(f: Flow) -> Plan
    ensures { result ≡ trap_overflow_plan f }
{
    let over = flags::v_of(f.sr);
    if over {
        return plan::trapping(codes::TRAPV_INSTRUCTION, f);
    }
    plan::nothing(f)
}

// CHK.
#[tactic(auto, unfolding(crate::specs::System::check_bounds))]
pub fn check_bounds(r: &mut [u32; SLOTS], mem: &Parts, op: u32, f: Flow) -> Plan
    ensures { record { r = r.new; p = result } ≡ check_bounds r.old (view_of (map (λ x. x.now) mem.now)) op f }
{
    let w = operand::source(r, mem, op / 8 % 8, op % 8, codes::WORD, f);
    let g = w.flow;
    let a = alu::check(operand::get(r, op / 512 % 8), w.value, f.sr);
    let h = plan::flagged(g, a.ccr);
    let outside = a.value == 1;
    if outside {
        return plan::trapping(codes::CHK_INSTRUCTION, h);
    }
    plan::nothing(h)
}
