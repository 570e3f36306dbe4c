// lib.rt - the instruction of an operation word: its kind, whether it may be done in this state, the family's function, and its clocks.
// Means: specs/Dispatch.antt.  Laws: proofs/DispatchLaws.antt, proofs/ClockLaws.antt.
// Uses: codes, bus, operand, plan, timing, decode, kind_table, movement, control.  Source: [01 step 2], [01 step 4], [003 4.4.7], [K2].
#![tactic(auto)]

ghost use Rattle.std.specs.Prelude.{◌≡◌, ◌/◌, ◌%◌, ◌<◌, ◌≤◌, map, length};
ghost use Rattle.bus.specs.Bus.{view_of};
ghost use Rattle.execute.specs.Dispatch.{dispatch, as_user, execute, user_clocks, own_clocks, after_branch};
ghost use Rattle.clocks.specs.Lines.{clocks};

use bus::{Flow, Parts};
use codes::SLOTS;
use decode::kinds;
use plan::Plan;

mod families;

// What is to be done for an instruction, and how many clocks it takes if it takes no exception.
#[derive(Clone, Copy)]
pub struct Timed {
    pub plan: Plan,
    pub clocks: u32,
}

// The function of a kind, and its clocks.
fn dispatch(k: u32, r: &mut [u32; SLOTS], mem: &Parts, op: u32, f: Flow) -> Timed
    ensures plan_value { record { r = r.new; p = result.plan } ≡ dispatch k r.old (view_of (map (λ x. x.now) mem.now)) op f }
    ensures clocks_value { result.clocks ≡ clocks k r.old (view_of (map (λ x. x.now) mem.now)) op f }
{
    let first = k < kinds::MOVE;
    if first {
        return families::refused_kind(k, r, mem, op, f);
    }
    let second = k < kinds::ADD_TO_REGISTER;
    if second {
        return families::movement_kind(k - kinds::MOVE, r, mem, op, f);
    }
    let third = k < kinds::AND_TO_REGISTER;
    if third {
        return families::integer_kind(k - kinds::ADD_TO_REGISTER, r, mem, op, f);
    }
    let fourth = k < kinds::BCC;
    if fourth {
        return families::logical_kind(k - kinds::AND_TO_REGISTER, r, mem, op, f);
    }
    let fifth = k < kinds::AND_I_TO_CCR;
    if fifth {
        return families::control_kind(k - kinds::BCC, r, mem, op, f);
    }
    families::system_kind(k - kinds::AND_I_TO_CCR, r, mem, op, f)
}

// In user state a privileged instruction is refused.
fn as_user(k: u32, r: &mut [u32; SLOTS], mem: &Parts, op: u32, f: Flow) -> Timed
    ensures plan_value { record { r = r.new; p = result.plan } ≡ as_user k r.old (view_of (map (λ x. x.now) mem.now)) op f }
    ensures clocks_value { result.clocks ≡ user_clocks k r.old (view_of (map (λ x. x.now) mem.now)) op f }
{
    let high = decode::privileged(k);
    if high {
        return families::taking(0, families::refused(codes::PRIVILEGE_VIOLATION, f));
    }
    dispatch(k, r, mem, op, f)
}

// PC behind a branch that is not taken.
fn after_branch(op: u32, pc: u32) -> u32
    ensures { result ≡ after_branch op pc }
{
    let word = op % 256 == 0;
    if word {
        return std::num::wrapping_add_u32(pc, 2);
    }
    pc
}

// What the type says of the registers: the data registers are there.
fn data_registers(r: &[u32; SLOTS]) -> usize
    ensures { 8 ≤ length r.now }
{
    registers_there(r)
}

fn registers_there(r: &[u32]) -> usize
    ensures { result ≡ length r.now }
{
    r.len()
}

// The operation word alone decides illegal and privileged. The commonest kinds, none of them privileged, are asked first, for speed. Where a
// branch leaves PC at another place than the next instruction's it was taken: its condition is asked once more only where it may not be.
pub fn execute(r: &mut [u32; SLOTS], mem: &Parts, op: u32, f: Flow) -> Timed
    ensures plan_value { record { r = r.new; p = result.plan } ≡ execute r.old (view_of (map (λ x. x.now) mem.now)) op f }
    ensures clocks_value { result.clocks ≡ own_clocks r.old (view_of (map (λ x. x.now) mem.now)) op f }
{
    let k = kind_table::kind_of(op);
    let branches = (k == kinds::BCC) | (k == kinds::BRA);
    if branches {
        let p = control::branch(mem, op, f);
        let g = p.flow;
        let on = g.pc == after_branch(op, f.pc);
        if on {
            return Timed {
                plan: p,
                clocks: timing::branched(10, 8, 12, op, f),
            };
        }
        return Timed {
            plan: p,
            clocks: 10,
        };
    }
    let counts = k == kinds::DBCC;
    if counts {
        let there = data_registers(r);
        let p = control::decrement_branch(r, mem, op, f);
        let g = p.flow;
        let on = g.pc == std::num::wrapping_add_u32(f.pc, 2);
        if on {
            let spent = operand::get(r, op % 8) % 65536 == 0xFFFF;
            return Timed {
                plan: p,
                clocks: timing::counted_by(12, 10, 14, spent, op, f),
            };
        }
        return Timed {
            plan: p,
            clocks: 10,
        };
    }
    let moves = k == kinds::MOVE;
    if moves {
        let p = movement::move_data(r, mem, op, f);
        return Timed {
            plan: p,
            clocks: timing::moved(op),
        };
    }
    let user = f.sr / codes::SUPERVISOR % 2 == 0;
    if user {
        return as_user(k, r, mem, op, f);
    }
    dispatch(k, r, mem, op, f)
}
