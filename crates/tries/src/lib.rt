// lib.rt - the pattern tryer: it tries a stranger's program in a window, says how that ended, and takes all back. No call has a `requires`.
// Means: specs/Tries.antt, specs/Promises.antt.  Laws: proofs/TryLaws.antt, proofs/PromiseLaws.antt; the theorems stand in the crate tried.
// Uses: codes, bus, bank, record, refusals, calls, answers, keeping, machine.  Source: [K7], [K10].
#![tactic(auto)]

ghost use Rattle.std.specs.Prelude.{◌≡◌};
ghost use Rattle.bus.specs.Bus.{board_of};
ghost use Rattle.refusals.specs.Refusals.{refusal_number, number_given};
ghost use Rattle.tries.specs.Tries.{refused, trying, try_number};
ghost use Rattle.tries.specs.Promises.{TryPromise, BackPromise};

use bus::Window;
use codes::SLOTS;
use record::limits::LONGEST_RECORD;
use refusals::Refusal;

// Why a try ended: its steps are done; it started in supervisor state; its last step took an exception, or halted; a step was refused.
// They stay numbers: `end` of TryAnswer is C's, `enum ibz_end` of c/ibezofanle.h.
pub const SPENT: u32 = 1;

pub const SUPERVISED: u32 = 2;

pub const TAKEN_EXCEPTION: u32 = 3;

pub const HALT: u32 = 4;

pub const REFUSED: u32 = 5;

// A try's answer: why it ended, the refusal's number or 0, the vector that was taken first or 0, how many steps were accepted, the last
// one too, and the mark: so many undos take it back. The answers are C's structs: new members go to the end.
#[repr(C)]
#[derive(Clone, Copy)]
pub struct TryAnswer {
    pub end: u32,
    pub number: u32,
    pub vector: u32,
    pub steps: u32,
    pub mark: usize,
}

impl TryAnswer {
    // What refuses a try's first step.
    pub fn refused(refusal: Refusal, mark: usize) -> TryAnswer
        ensures { result ≡ record { end = refused; number = refusal_number refusal; vector = 0; steps = 0; mark = mark } }
    {
        TryAnswer {
            end: REFUSED,
            number: u32::from(refusal),
            vector: 0,
            steps: 0,
            mark,
        }
    }
}

// What taking back answers: the refusal's number or 0, how many steps were undone, the mark, and the window then.
#[repr(C)]
#[derive(Clone, Copy)]
pub struct BackAnswer {
    pub number: u32,
    pub undone: u32,
    pub mark: usize,
    pub lo: u32,
    pub hi: u32,
}

// Whether a try's first step is refused.
fn judge_try(
    slots: &[u32; SLOTS],
    win: Window,
    memory: &[u8],
    rom: &[u8],
    count: u32,
    journal: &[u8],
    mark: usize,
) -> Result<(), Refusal>
    ensures { number_given result ≡ try_number (board_of win rom.now) slots.now memory.now count journal.now mark }
{
    answers::judge_first(slots, win, memory, rom)?;
    if codes::MOST_STEPS < count {
        return Err(Refusal::TooHigh);
    }
    if journal.len() < mark {
        return Err(Refusal::Mark);
    }
    if journal.len() - mark < LONGEST_RECORD {
        return Err(Refusal::NoRoom);
    }
    if slots[codes::MODE] == codes::HALTED {
        return Err(Refusal::Halted);
    }
    Ok(())
}

// A try that ended with neither a refusal's number nor a vector.
fn ended(end: u32, steps: u32, mark: usize) -> TryAnswer
    ensures { result ≡ record { end = end; number = 0; vector = 0; steps = steps; mark = mark } }
{
    TryAnswer {
        end,
        number: 0,
        vector: 0,
        steps,
        mark,
    }
}

// The steps of a try that nothing forbids: it ends at the first one that takes an exception, halts or is refused.
fn trying(
    slots: &mut [u32; SLOTS],
    win: Window,
    memory: &mut [u8],
    rom: &[u8],
    count: u32,
    journal: &mut [u8],
    mark: usize,
) -> TryAnswer
    ensures { record { s = slots.new; m = memory.new; j = journal.new; a = result } ≡ trying (board_of win rom.now) count 0 slots.old memory.old journal.old mark }
{
    let mut at = mark;
    for n in 0..count {
        let a = keeping::step_keeping(slots, win, memory, rom, 0, 0, journal, at);
        if a.number != 0 {
            return TryAnswer {
                number: a.number,
                ..ended(REFUSED, n, at)
            };
        }
        at = a.mark;
        if a.event == codes::HALT_EVENT {
            return ended(HALT, n + 1, at);
        }
        if a.event != codes::NO_EVENT {
            let vector = a.event - 1;
            return TryAnswer {
                vector,
                ..ended(TAKEN_EXCEPTION, n + 1, at)
            };
        }
    }
    ended(SPENT, count, at)
}

// Tries what stands at PC: in the window, with level 0, up to a number of steps, the first exception or a refusal. No records are dropped.
pub fn try_pattern(
    slots: &mut [u32; SLOTS],
    win: Window,
    memory: &mut [u8],
    rom: &[u8],
    count: u32,
    journal: &mut [u8],
    mark: usize,
) -> TryAnswer
    ensures { TryPromise (board_of win rom.now) slots.old memory.old count journal.old mark slots.new memory.new journal.new result }
{
    if let Err(refusal) = judge_try(slots, win, memory, rom, count, journal, mark) {
        return TryAnswer::refused(refusal, mark);
    }
    if bank::supervisor(slots[codes::SR]) {
        return ended(SUPERVISED, 0, mark);
    }
    trying(slots, win, memory, rom, count, journal, mark)
}

// Takes so many steps back, and gives the old window again; where an undo is refused it ends there, and the window stays.
pub fn take_back(
    slots: &mut [u32; SLOTS],
    win: Window,
    memory: &mut [u8],
    rom: &[u8],
    journal: &[u8],
    mark: usize,
    steps: u32,
    old: Window,
) -> BackAnswer
    ensures { BackPromise (board_of win rom.now) old slots.old memory.old journal.now mark steps slots.new memory.new result }
{
    let mut at = mark;
    for n in 0..steps {
        let a = machine::undo(slots, win, memory, rom, journal, at);
        if a.number != 0 {
            return BackAnswer {
                number: a.number,
                undone: n,
                mark: at,
                lo: win.lo,
                hi: win.hi,
            };
        }
        at = a.mark;
    }
    BackAnswer {
        number: 0,
        undone: steps,
        mark: at,
        lo: old.lo,
        hi: old.hi,
    }
}
