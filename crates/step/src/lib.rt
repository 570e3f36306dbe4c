// lib.rt - the end of an instruction: its writes, its trap and the trace after it, or its fault; and the clocks of all that.
// Means: specs/Steps.antt; a whole step in code is crate one_step.  Laws: proofs/StepLaws.antt, proofs/ClockLaws.antt.
// Uses: codes, bits, plan, timing, blocks, store, touch, bank, exception.  Source: [003 4.4.8], [01 step 5], [01 step 6], [01 step 7], [K2].
#![tactic(auto)]

ghost use Rattle.std.specs.Prelude.{◌≡◌, ◌+◌, ◌≤◌, ◌<◌, length};
ghost use Rattle.bank.specs.Bank.{settle};
ghost use Rattle.touch.specs.Touch.{LogOk, Noted};
ghost use Rattle.step.specs.Steps.{commit, trap_of, take_trap, traced, both, carry_out, conclude, trap_clocks, trace_clocks, ended_clocks};
ghost use Rattle.step.specs.Steps.{concluded_clocks};

use codes::SLOTS;
use exception::Ended;
use plan::Plan;

// An operation word, what is to be done for it, and the clocks of its instruction if it takes no exception.
#[derive(Clone, Copy)]
pub struct Tried {
    pub op: u32,
    pub p: Plan,
    pub clocks: u32,
}

// How a step ended: the entries in the log, the event and the clocks.
#[derive(Clone, Copy)]
pub struct Taken {
    pub n: usize,
    pub event: u32,
    pub clocks: u32,
}

// The write of a plan that has one.
fn commit(mem: &mut [u8], log: &mut [u64], r: &[u32; SLOTS], p: Plan) -> usize
    requires { LogOk mem.old log.old 0 × (64 ≤ length log.old) }
    ensures mem_after { mem.new ≡ commit mem.old r.now p }
    ensures noted { Noted mem.old log.old 0 64 mem.new log.new result }
{
    let one = p.write < codes::NO_WRITE;
    if one {
        return store::store_sized(mem, log, 0, p.at, p.write, p.value);
    }
    blocks::block_store(mem, log, 0, r, p)
}

// The vector of a plan's trap, or 0.
fn trap_of(p: Plan) -> u32
    ensures { result ≡ trap_of p }
{
    let some = p.vector < codes::STOP_CODE;
    if some {
        return p.vector;
    }
    codes::NO_VECTOR
}

// The exception of a vector, and nothing for vector 0.
fn take_trap(s: &mut [u32; SLOTS], mem: &mut [u8], log: &mut [u64], n: usize, vec: u32) -> Ended
    requires { LogOk mem.old log.old n × (n + 6 ≤ length log.old) }
    ensures s_after { s.new ≡ (take_trap s.old mem.old vec).s }
    ensures mem_after { mem.new ≡ (take_trap s.old mem.old vec).m }
    ensures event_value { result.event ≡ (take_trap s.old mem.old vec).event }
    ensures noted { Noted mem.old log.old n 6 mem.new log.new result.n }
{
    let some = codes::NO_VECTOR < vec;
    if some {
        let sr = exception::supervisor_sr(s[codes::SR]);
        return exception::exception(s, mem, log, n, vec, sr);
    }
    Ended {
        n,
        event: codes::NO_EVENT,
    }
}

// The vector of the trace that follows, or 0: none after a refused instruction or a halt.
fn traced(vec: u32, trace: bool, event: u32) -> u32
    ensures { result ≡ traced vec trace event }
{
    let refused = (vec == codes::ILLEGAL_INSTRUCTION)
        | (vec == codes::PRIVILEGE_VIOLATION)
        | (vec == codes::LINE1010)
        | (vec == codes::LINE1111);
    let halted = event == codes::HALT_EVENT;
    bits::bit(trace & !refused & !halted) * codes::TRACE_VECTOR
}

// A trap, and the trace after it: the first event counts.
fn both(s: &mut [u32; SLOTS], mem: &mut [u8], log: &mut [u64], vec: u32, trace: bool) -> Ended
    requires { LogOk mem.old log.old 0 × (12 ≤ length log.old) }
    ensures s_after { s.new ≡ (both s.old mem.old vec trace).s }
    ensures mem_after { mem.new ≡ (both s.old mem.old vec trace).m }
    ensures event_value { result.event ≡ (both s.old mem.old vec trace).event }
    ensures noted { Noted mem.old log.old 0 12 mem.new log.new result.n }
{
    let a = take_trap(s, mem, log, 0, vec);
    let b = take_trap(s, mem, log, a.n, traced(vec, trace, a.event));
    let first = a.event == codes::NO_EVENT;
    if first {
        return b;
    }
    Ended {
        n: b.n,
        event: a.event,
    }
}

// The end of an instruction that met no fault: its write and the trace; or, where it writes nothing, its trap and the trace. r has the
// registers, and then the slots; s the slots before it. MOVEM's write reads the registers, so it comes before they are slots again.
fn carry_out(
    r: &mut [u32; SLOTS],
    s: &[u32; SLOTS],
    mem: &mut [u8],
    log: &mut [u64],
    p: Plan,
    trace: bool,
) -> Ended
    requires { LogOk mem.old log.old 0 × (70 ≤ length log.old) }
    ensures r_after { r.new ≡ (carry_out (settle s.now r.old p) mem.old r.old p trace).s }
    ensures mem_after { mem.new ≡ (carry_out (settle s.now r.old p) mem.old r.old p trace).m }
    ensures event_value { result.event ≡ (carry_out (settle s.now r.old p) mem.old r.old p trace).event }
    ensures noted { Noted mem.old log.old 0 70 mem.new log.new result.n }
{
    let none = p.write == codes::NO_WRITE;
    if none {
        bank::settle(r, s, p);
        let quiet = (p.vector == codes::NO_VECTOR) & !trace;
        if quiet {
            return Ended {
                n: 0,
                event: codes::NO_EVENT,
            };
        }
        let vec = trap_of(p);
        return both(r, mem, log, vec, trace);
    }
    let n = commit(mem, log, r, p);
    bank::settle(r, s, p);
    if trace {
        return take_trap(r, mem, log, n, codes::TRACE_VECTOR);
    }
    Ended {
        n,
        event: codes::NO_EVENT,
    }
}

// The end of an instruction: r has the registers then, s the slots before it. One that faults keeps nothing of its work.
fn conclude(
    r: &mut [u32; SLOTS],
    s: &[u32; SLOTS],
    mem: &mut [u8],
    log: &mut [u64],
    t: Tried,
) -> Ended
    requires { LogOk mem.old log.old 0 × (70 ≤ length log.old) }
    ensures r_after { r.new ≡ (conclude s.now mem.old r.old t).s }
    ensures mem_after { mem.new ≡ (conclude s.now mem.old r.old t).m }
    ensures event_value { result.event ≡ (conclude s.now mem.old r.old t).event }
    ensures noted { Noted mem.old log.old 0 70 mem.new log.new result.n }
{
    let p = t.p;
    let f = p.flow;
    let fine = f.bad == 0;
    if fine {
        let trace = bank::tracing(s[codes::SR]);
        return carry_out(r, s, mem, log, p, trace);
    }
    let before = *s;
    *r = before;
    exception::fault(r, mem, log, 0, f.bad, t.op)
}

// The clocks of an instruction that met no fault: its own, or its trap's, none if that halts.
fn trap_clocks(t: Tried, event: u32) -> u32
    requires { t.clocks < 512 }
    ensures value { result ≡ trap_clocks t event }
    ensures upper_bound { result < 512 }
{
    let p = t.p;
    let vec = trap_of(p);
    let none = vec == codes::NO_VECTOR;
    if none {
        return t.clocks;
    }
    let halted = event == codes::HALT_EVENT;
    if halted {
        return 0;
    }
    timing::exception_clocks(vec, t.op)
}

// The clocks of the trace after it, none if that halts.
fn trace_clocks(t: Tried, trace: bool, mode: u32) -> u32
    ensures value { result ≡ trace_clocks t trace mode }
    ensures upper_bound { result < 512 }
{
    let p = t.p;
    let vec = trap_of(p);
    let halted = mode == codes::HALTED;
    let none = traced(vec, trace & !halted, codes::NO_EVENT) == codes::NO_VECTOR;
    if none {
        return 0;
    }
    timing::exception_clocks(codes::TRACE_VECTOR, t.op)
}

// The clocks of an instruction by how it ended.
fn ended_clocks(t: Tried, trace: bool, event: u32, mode: u32) -> u32
    requires { t.clocks < 512 }
    ensures { result ≡ ended_clocks t trace event mode }
{
    let quiet = event == codes::NO_EVENT;
    if quiet {
        return t.clocks;
    }
    let p = t.p;
    let f = p.flow;
    let fine = f.bad == 0;
    if fine {
        return trap_clocks(t, event) + trace_clocks(t, trace, mode);
    }
    let halted = event == codes::HALT_EVENT;
    if halted {
        return 0;
    }
    timing::exception_clocks(f.bad % 4, t.op)
}

// The end of an instruction, with its clocks.
pub fn concluded(
    r: &mut [u32; SLOTS],
    s: &[u32; SLOTS],
    mem: &mut [u8],
    log: &mut [u64],
    t: Tried,
) -> Taken
    requires log_ok { LogOk mem.old log.old 0 × (70 ≤ length log.old) }
    requires clocks_bound { t.clocks < 512 }
    ensures r_after { r.new ≡ (conclude s.now mem.old r.old t).s }
    ensures mem_after { mem.new ≡ (conclude s.now mem.old r.old t).m }
    ensures event_value { result.event ≡ (conclude s.now mem.old r.old t).event }
    ensures clocks_value { result.clocks ≡ concluded_clocks s.now mem.old r.old t }
    ensures noted { Noted mem.old log.old 0 70 mem.new log.new result.n }
{
    let trace = bank::tracing(s[codes::SR]);
    let e = conclude(r, s, mem, log, t);
    let c = ended_clocks(t, trace, e.event, r[codes::MODE]);
    Taken {
        n: e.n,
        event: e.event,
        clocks: c,
    }
}
