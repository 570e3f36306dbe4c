// lib.rt - the calls of the machine: reset, step, run and undo, with their refusals. No call has a `requires`. Where the journal is full,
// step and run drop its oldest records; those that keep all of them are step_keeping and run_keeping of the crate keeping.
// Means: Calls and Promises of the crate calls, step and run at Dropping.  Laws: proofs/CallLaws.antt, proofs/FirstLaws.antt.
// Uses: codes, bits, bus, record, undo, refusals, oldest, calls, answers, taken, keeping, full.  Source: [01 Calls and what they give back], [K2], [K5], [K7], [K10].
#![tactic(auto)]

ghost use Rattle.bus.specs.Bus.{board_of};
ghost use Rattle.calls.specs.declared.Manner.TheVariants.{Dropping};
ghost use Rattle.calls.specs.Promises.{ResetPromise, StepPromise, RunPromise, UndoPromise};

use bus::Window;
use calls::{Manner, ResetAnswer, RunAnswer, StepAnswer, UndoAnswer};
use codes::SLOTS;
use record::limits::{BYTE_LIMIT, LONGEST_RECORD};
use refusals::Refusal;

// Reset. It does not write memory. The window that it gives is all of memory, with a ROM too.
pub fn reset(slots: &mut [u32; SLOTS], memory: &[u8], rom: &[u8]) -> ResetAnswer
    ensures { ResetPromise memory.now rom.now slots.new result }
{
    if let Err(refusal) = answers::judge_reset(memory, rom) {
        *slots = answers::refused_slots();
        return ResetAnswer::refused(refusal);
    }
    *slots = answers::reset_slots(memory);
    ResetAnswer {
        number: 0,
        lo: 0,
        hi: memory.len() as u32,
    }
}

// A step, after the room that it needs is there or made.
pub fn step(
    slots: &mut [u32; SLOTS],
    win: Window,
    memory: &mut [u8],
    rom: &[u8],
    level: u32,
    vector: u8,
    journal: &mut [u8],
    mark: usize,
) -> StepAnswer
    ensures { StepPromise Dropping (board_of win rom.now) slots.old memory.old level vector journal.old mark slots.new memory.new journal.new result }
{
    if let Err(refusal) = answers::judge_step(
        Manner::Dropping,
        slots,
        win,
        memory,
        rom,
        level,
        journal,
        mark,
    ) {
        return StepAnswer::refused(refusal, mark);
    }
    let room = oldest::make_room(journal, mark, memory.len());
    if room.number != 0 {
        return StepAnswer::refused(Refusal::Torn, mark);
    }
    let mut log = [0u64; BYTE_LIMIT];
    let a = taken::step_taken(
        slots,
        win,
        memory,
        rom,
        level,
        bits::wide(vector),
        journal,
        room.mark,
        &mut log,
    );
    StepAnswer {
        moved: room.moved,
        dropped: room.dropped,
        ..a
    }
}

// A run: its steps as where all records are kept, until room is short; from there on the oldest records are dropped.
pub fn run(
    slots: &mut [u32; SLOTS],
    win: Window,
    memory: &mut [u8],
    rom: &[u8],
    budget: u32,
    stop: u32,
    journal: &mut [u8],
    mark: usize,
) -> RunAnswer
    ensures { RunPromise Dropping (board_of win rom.now) slots.old memory.old budget stop journal.old mark slots.new memory.new journal.new result }
{
    if let Err(refusal) = answers::judge_run(slots, win, memory, rom, budget, journal, mark) {
        return RunAnswer::refused(refusal, mark);
    }
    let mut log = [0u64; BYTE_LIMIT];
    let a = keeping::running(
        slots, win, memory, rom, budget, stop, journal, mark, &mut log,
    );
    if a.reason == 4 && LONGEST_RECORD <= journal.len() {
        return full::running_full(
            slots, win, memory, rom, budget, stop, journal, a.mark, a.steps, a.clocks, &mut log,
        );
    }
    a
}

pub fn undo(
    slots: &mut [u32; SLOTS],
    win: Window,
    memory: &mut [u8],
    rom: &[u8],
    journal: &[u8],
    mark: usize,
) -> UndoAnswer
    ensures { UndoPromise (board_of win rom.now) slots.old memory.old journal.now mark slots.new memory.new result }
{
    if let Err(refusal) = answers::judge_undo(slots, win, memory, rom, journal, mark) {
        return UndoAnswer::refused(refusal, mark);
    }
    let a = undo::undo(slots, memory, journal, mark);
    answers::undo_answer(mark, a)
}
