// lib.rt - what an instruction leaves to do: one write, a trap or a stop, and where it stands. The instruction families share this.
// Means: specs/Plans.antt.  Laws: proofs/PlanLaws.antt.
// Uses: codes, bits, flags, bus, operand.  Source: [003 4.4.5], [003 4.4.10], [01 step 3], [01 step 6], [K3], [ours].
#![tactic(auto)]

ghost use Rattle.std.specs.Prelude.{◌≡◌, ◌+◌, ◌*◌, ◌%◌, ◌/◌};
ghost use Rattle.plan.specs.Plans.{flagged, jump, nothing, trapping, refusing, stopping, writing, finish, push, quick};

use bus::Flow;
use codes::SLOTS;
use flags::Flagged;
use operand::Operand;

// The write of `value` at `at`: `write` is its size, or none, or one of the blocks of `codes` (of MOVEM's, `value` is the list, and 65,536 times
// the register that the list's address came from). `vector` is that of a trap, or none, or a stop; a plan with a trap writes nothing. `flow`
// has the new PC and SR, and the fault if there is one: then nothing of this is done.
#[derive(Clone, Copy)]
pub struct Plan {
    pub write: u32,
    pub at: u32,
    pub value: u32,
    pub vector: u32,
    pub flow: Flow,
}

// The flow with other flags.
pub fn flagged(f: Flow, c: u32) -> Flow
    ensures { result ≡ flagged f c }
{
    bus::with_sr(f, flags::with_ccr(f.sr, c))
}

// Every jump goes through here. An odd target is an address error, in the state of the flow: so a jump comes before its SR.
pub fn jump(f: Flow, to: u32) -> Flow
    ensures { result ≡ jump f to }
{
    let odd = to % 2 == 1;
    if odd {
        let clean = f.bad == 0;
        if clean {
            return bus::failed(f, codes::ADDRESS_ERROR, to, codes::PROGRAM_READ);
        }
        return bus::with_pc(f, to);
    }
    bus::with_pc(f, to)
}

pub fn nothing(f: Flow) -> Plan
    ensures { result ≡ nothing f }
{
    Plan {
        write: codes::NO_WRITE,
        at: 0,
        value: 0,
        vector: codes::NO_VECTOR,
        flow: f,
    }
}

// A trap whose saved PC is the next instruction's address.
pub fn trapping(vec: u32, f: Flow) -> Plan
    ensures { result ≡ trapping vec f }
{
    Plan {
        write: codes::NO_WRITE,
        at: 0,
        value: 0,
        vector: vec,
        flow: f,
    }
}

// A refused instruction: its saved PC is its own address, that of the first word.
pub fn refusing(vec: u32, own: u32, f: Flow) -> Plan
    ensures { result ≡ refusing vec own f }
{
    trapping(vec, bus::with_pc(f, own))
}

pub fn stopping(f: Flow) -> Plan
    ensures { result ≡ stopping f }
{
    trapping(codes::STOP_CODE, f)
}

pub fn writing(z: u32, at: u32, v: u32, f: Flow) -> Plan
    ensures { result ≡ writing z at v f }
{
    Plan {
        write: z,
        at,
        value: v,
        vector: codes::NO_VECTOR,
        flow: f,
    }
}

// A result and its flags go to their places: into a register at once, and to memory as a plan.
pub fn finish(r: &mut [u32; SLOTS], q: Operand, z: u32, a: Flagged) -> Plan
    ensures { record { r = r.new; p = result } ≡ finish r.old q z a }
{
    let kind = q.kind;
    let at = q.at;
    let f = q.flow;
    let g = flagged(f, a.ccr);
    let inside = kind == codes::IN_REGISTER;
    if inside {
        operand::put_low(r, at, z, a.value);
        return nothing(g);
    }
    writing(z, at, a.value, g)
}

// A long on the stack.
pub fn push(r: &mut [u32; SLOTS], v: u32, f: Flow) -> Plan
    ensures { record { r = r.new; p = result } ≡ push r.old v f }
{
    let a = bits::minus(operand::get(r, codes::A7), 4);
    operand::put(r, codes::A7, a);
    writing(codes::LONG, a, v, f)
}

// The data of ADDQ and SUBQ, and the count of a shift: 0 means 8.
pub fn quick(op: u32) -> u32
    ensures { result ≡ quick op }
{
    let n = op / 512 % 8;
    let none = n == 0;
    n + bits::bit(none) * 8
}
