// lib.rt - one step and its record at the mark, in a journal that has room for it. Every call that takes a step takes it by this.
// Means: step_taken of the crate calls.  Laws: proofs/TakenLaws.antt.
// Uses: bus, record, one_step, calls.  Source: [01 Calls and what they give back], [01 The journal], [K2], [K7], [K10].
#![tactic(auto)]

ghost use Rattle.std.specs.Prelude.{◌≡◌, true, ℕ, ◌+◌, ◌≤◌, ◌<◌, ◌^◌, length, get_or};
ghost use Rattle.bus.specs.Bus.{board_of};
ghost use Rattle.record.specs.Limits.{slot_limit, byte_limit, longest_record};
ghost use Rattle.calls.specs.Calls.{memory_fits, state_fits, step_taken};
ghost use Rattle.taken.specs.Going.{GoesOn};

use bus::Window;
use calls::StepAnswer;
use codes::SLOTS;

// What the type says of slots: their number, and 32 bits each.
fn words(s: &[u32]) -> usize
    ensures value { result ≡ length s.now }
    ensures by_index { (k : ℕ) → get_or s.now k 0 < 2 ^ 32 }
{
    words_there(s)
}

fn words_there(s: &[u32]) -> usize
    ensures { result ≡ length s.now }
{
    s.len()
}

pub fn twenty(s: &[u32; SLOTS]) -> usize
    ensures s_len { length s.now ≡ slot_limit }
    ensures by_index { (k : ℕ) → get_or s.now k 0 < 2 ^ 32 }
{
    words(s)
}

// What the type says of memory: bytes.
pub fn bytes(m: &[u8]) -> usize
    ensures value { result ≡ length m.now }
    ensures by_index { (k : ℕ) → get_or m.now k 0 < 256 }
{
    bytes_there(m)
}

fn bytes_there(m: &[u8]) -> usize
    ensures { result ≡ length m.now }
{
    m.len()
}

// One step and its record at the mark. The log is lent, so that a run makes it once.
pub fn step_taken(
    slots: &mut [u32; SLOTS],
    win: Window,
    memory: &mut [u8],
    rom: &[u8],
    level: u32,
    vector: u32,
    journal: &mut [u8],
    mark: usize,
    log: &mut [u64],
) -> StepAnswer
    requires { (memory_fits memory.old ≡ true) × (mark + longest_record ≤ length journal.old) × (byte_limit ≤ length log.old) × (state_fits slots.old ≡ true) }
    ensures slots_after { slots.new ≡ (step_taken (board_of win rom.now) slots.old memory.old level vector journal.old mark).s }
    ensures memory_after { memory.new ≡ (step_taken (board_of win rom.now) slots.old memory.old level vector journal.old mark).m }
    ensures journal_after { journal.new ≡ (step_taken (board_of win rom.now) slots.old memory.old level vector journal.old mark).j }
    ensures value { result ≡ (step_taken (board_of win rom.now) slots.old memory.old level vector journal.old mark).a }
    ensures goes_on { GoesOn slots.new memory.old memory.new journal.old journal.new log.old log.new result.mark }
{
    let size = twenty(slots);
    let long = bytes(memory);
    let old = *slots;
    let e = one_step::one_step(slots, &old, win, memory, rom, log, level, vector);
    let next = record::put_record(journal, mark, &old, slots, memory, log, e.n);
    StepAnswer {
        number: 0,
        event: e.event,
        mark: next,
        clocks: e.clocks,
        moved: 0,
        dropped: 0,
    }
}
