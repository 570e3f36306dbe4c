// lib.rt - an exception: room for its frame on SSP, the vector, the slots, and the halt where it cannot be taken.
// Means: specs/Exceptions.antt.  Laws: proofs/ExceptionLaws.antt, proofs/EnterLaws.antt.
// Uses: codes, bits, bus, bank, touch, frames.  Source: [003 4.3.5], [003 4.4.9], [003 4.4.10], [01 step 1], [01 step 7], [01 step 8], [K3].
#![tactic(auto)]

ghost use Rattle.std.specs.Prelude.{◌≡◌, ◌+◌, ◌%◌, ◌≤◌, length};
ghost use Rattle.bus.specs.Bus.{all_of};
ghost use Rattle.touch.specs.Touch.{LogOk, Noted};
ghost use Rattle.frames.specs.Frames.{small_frame, big_frame};
ghost use Rattle.exception.specs.Exceptions.{fresh, supervisor_sr, small_room, of_fault, small_ready, enter, exception, big_room, big_ready};
ghost use Rattle.exception.specs.Exceptions.{fault_taken, fault, can_enter};

use bus::Flow;
use codes::SLOTS;

// How an exception, or a step, ended: the entries of the touch log, and the event: none, 1 more than the vector taken first, or a
// halt.
#[derive(Clone, Copy)]
pub struct Ended {
    pub n: usize,
    pub event: u32,
}

// The flow at an instruction's first word.
pub fn fresh(pc: u32, sr: u32) -> Flow
    ensures { result ≡ fresh pc sr }
{
    Flow { pc, sr, bad: 0 }
}

// SR as an exception leaves it: S set, T clear.
pub fn supervisor_sr(sr: u32) -> u32
    ensures { result ≡ supervisor_sr sr }
{
    codes::SUPERVISOR + sr % codes::SUPERVISOR
}

// Whether the six bytes of a frame can be written.
#[tactic(auto, unfolding(crate::specs::Exceptions::small_room))]
fn small_room(mem: &[u8], a: u32) -> bool
    ensures { result ≡ small_room (all_of mem.now) a }
{
    let g = bus::room_anywhere(mem, a, codes::WORD, fresh(0, 0));
    let h = bus::room_anywhere(mem, std::num::wrapping_add_u32(a, 2), codes::LONG, g);
    h.bad == 0
}

// Whether a vector is one whose handler must be even.
fn of_fault(vec: u32) -> bool
    ensures { result ≡ of_fault vec }
{
    (vec % 256 == codes::BUS_ERROR) | (vec % 256 == codes::ADDRESS_ERROR)
}

// Whether the handler can be entered once the small frame is written. Looked up before it is: an exception that halts writes nothing. The
// last byte of the vector tells odd from even.
fn small_enters(mem: &[u8], a: u32, vec: u32, sr: u32, pc: u32) -> bool
    ensures { result ≡ can_enter (all_of (small_frame mem.now a sr pc)) vec }
{
    let judged = of_fault(vec);
    if judged {
        let i = vec % 256 * 4 + 3;
        let at = i as usize;
        let inside = at < mem.len();
        if inside {
            let c = frames::under_small(i, bits::wide(mem[at]), a, sr, pc);
            return c % 2 == 0;
        }
        return true;
    }
    true
}

// Whether an exception with the small frame can be taken.
#[tactic(auto, unfolding(crate::specs::Exceptions::small_ready))]
fn small_ready(s: &[u32; SLOTS], mem: &[u8], vec: u32) -> bool
    ensures { result ≡ small_ready s.now mem.now vec }
{
    let a = bits::minus(s[codes::SSP], 6);
    let room = small_room(mem, a);
    let enters = small_enters(mem, a, vec, s[codes::SR], s[codes::PC]);
    room & enters
}

// The slots as an exception leaves them: SSP at the frame, PC from the vector, which is read after the frame is written; running.
#[tactic(auto, unfolding(crate::specs::Exceptions::enter, crate::specs::Exceptions::handler))]
fn enter(s: &mut [u32; SLOTS], mem: &[u8], a: u32, vec: u32, sr: u32)
    ensures { s.new ≡ enter s.old (all_of mem.now) a vec sr }
{
    let w = bus::read_long_anywhere(mem, vec % 256 * 4, codes::DATA_READ, fresh(0, 0));
    let pc = w.value;
    s[codes::SSP] = a;
    s[codes::PC] = pc;
    s[codes::SR] = sr;
    s[codes::MODE] = codes::RUNNING;
}

// An exception with the small frame; sr is the SR that it leaves.
#[tactic(auto, unfolding(crate::specs::Exceptions::exception))]
pub fn exception(
    s: &mut [u32; SLOTS],
    mem: &mut [u8],
    log: &mut [u64],
    n: usize,
    vec: u32,
    sr: u32,
) -> Ended
    requires { LogOk mem.old log.old n × (n + 6 ≤ length log.old) }
    ensures s_after { s.new ≡ (exception s.old mem.old vec sr).s }
    ensures mem_after { mem.new ≡ (exception s.old mem.old vec sr).m }
    ensures event_value { result.event ≡ (exception s.old mem.old vec sr).event }
    ensures noted { Noted mem.old log.old n 6 mem.new log.new result.n }
{
    let ready = small_ready(s, mem, vec);
    if ready {
        let old = s[codes::SR];
        let pc = s[codes::PC];
        let a = bits::minus(s[codes::SSP], 6);
        let k = frames::small_frame(mem, log, n, a, old, pc);
        enter(s, mem, a, vec, sr);
        return Ended {
            n: k,
            event: vec % 256 + 1,
        };
    }
    s[codes::MODE] = codes::HALTED;
    Ended {
        n,
        event: codes::HALT_EVENT,
    }
}

// Whether the fourteen bytes of a fault's frame can be written.
#[tactic(auto, unfolding(crate::specs::Exceptions::big_room))]
fn big_room(mem: &[u8], a: u32) -> bool
    ensures { result ≡ big_room (all_of mem.now) a }
{
    let g = bus::room_anywhere(mem, a, codes::LONG, fresh(0, 0));
    let h = bus::room_anywhere(mem, std::num::wrapping_add_u32(a, 4), codes::LONG, g);
    let i = bus::room_anywhere(mem, std::num::wrapping_add_u32(a, 8), codes::LONG, h);
    let j = bus::room_anywhere(mem, std::num::wrapping_add_u32(a, 12), codes::WORD, i);
    j.bad == 0
}

// Whether the handler of a fault can be entered once its frame is written. A fault's vector is below 4: one test is enough.
fn big_enters(mem: &[u8], a: u32, bad: u32, op: u32, sr: u32, pc: u32) -> bool
    ensures { result ≡ can_enter (all_of (big_frame mem.now a bad op sr pc)) (bad % 4) }
{
    let judged = bad % 4 >= 2;
    if judged {
        let i = bad % 4 * 4 + 3;
        let at = i as usize;
        let inside = at < mem.len();
        if inside {
            let c = frames::under_big(i, bits::wide(mem[at]), a, bad, op, sr, pc);
            return c % 2 == 0;
        }
        return true;
    }
    true
}

// Whether a fault can be taken.
#[tactic(auto, unfolding(crate::specs::Exceptions::big_ready))]
fn big_ready(s: &[u32; SLOTS], mem: &[u8], bad: u32, op: u32) -> bool
    ensures { result ≡ big_ready s.now mem.now bad op }
{
    let a = bits::minus(s[codes::SSP], 14);
    let saved = std::num::wrapping_add_u32(s[codes::PC], 2);
    let room = big_room(mem, a);
    let enters = big_enters(mem, a, bad, op, s[codes::SR], saved);
    room & enters
}

// A fault that can be taken: the saved PC is the instruction's address plus 2.
#[tactic(auto, unfolding(crate::specs::Exceptions::fault_taken))]
fn fault_taken(
    s: &mut [u32; SLOTS],
    mem: &mut [u8],
    log: &mut [u64],
    n: usize,
    bad: u32,
    op: u32,
) -> Ended
    requires { LogOk mem.old log.old n × (n + 14 ≤ length log.old) }
    ensures s_after { s.new ≡ (fault_taken s.old mem.old bad op).s }
    ensures mem_after { mem.new ≡ (fault_taken s.old mem.old bad op).m }
    ensures event_value { result.event ≡ (fault_taken s.old mem.old bad op).event }
    ensures noted { Noted mem.old log.old n 14 mem.new log.new result.n }
{
    let sr = s[codes::SR];
    let a = bits::minus(s[codes::SSP], 14);
    let pc = std::num::wrapping_add_u32(s[codes::PC], 2);
    let k = frames::big_frame(mem, log, n, a, bad, op, sr, pc);
    enter(s, mem, a, bad % 4, supervisor_sr(sr));
    Ended {
        n: k,
        event: bad % 4 + 1,
    }
}

// The exception of a fault, from the slots as they were before the instruction.
#[tactic(auto, unfolding(crate::specs::Exceptions::fault))]
pub fn fault(
    s: &mut [u32; SLOTS],
    mem: &mut [u8],
    log: &mut [u64],
    n: usize,
    bad: u32,
    op: u32,
) -> Ended
    requires { LogOk mem.old log.old n × (n + 14 ≤ length log.old) }
    ensures s_after { s.new ≡ (fault s.old mem.old bad op).s }
    ensures mem_after { mem.new ≡ (fault s.old mem.old bad op).m }
    ensures event_value { result.event ≡ (fault s.old mem.old bad op).event }
    ensures noted { Noted mem.old log.old n 14 mem.new log.new result.n }
{
    let ready = big_ready(s, mem, bad, op);
    if ready {
        return fault_taken(s, mem, log, n, bad, op);
    }
    s[codes::MODE] = codes::HALTED;
    Ended {
        n,
        event: codes::HALT_EVENT,
    }
}
