// verdicts.rt - what a case is found to differ by, and the two functions that decide whether its step and its undo agree.
// Means: specs/Verdict.antt.
// Uses: codes.  Source: [ours], crates/vectors/README.md.
ghost use Rattle.compare.specs.Verdict.{StepAgrees, UndoAgrees, TellsAgrees};

use crate::{same, same_slots};
use codes::SLOTS;
use std::fmt;

// What differs first. A line that is no case differs too.
#[derive(Clone, Copy, PartialEq, Eq)]
pub enum Difference {
    NoCase,
    StepRefused,
    StepSlots,
    StepMemory,
    StepMark,
    StepJournal,
    StepClocks,
    UndoNumber,
    UndoSlots,
    UndoMemory,
    UndoMark,
}

impl fmt::Display for Difference {
    fn fmt<W: fmt::Write>(&self, f: &mut fmt::Formatter<W>) -> fmt::Result {
        f.write_str(match self {
            Difference::NoCase => "no case",
            Difference::StepRefused => "the step is refused",
            Difference::StepSlots => "slots after the step",
            Difference::StepMemory => "memory after the step",
            Difference::StepMark => "mark after the step",
            Difference::StepJournal => "journal after the step",
            Difference::StepClocks => "clocks of the step",
            Difference::UndoNumber => "number after the undo",
            Difference::UndoSlots => "slots after the undo",
            Difference::UndoMemory => "memory after the undo",
            Difference::UndoMark => "mark after the undo",
        })
    }
}

// Err of the first thing in which a step differs from what is wanted of it, or Ok: it agrees.
pub fn of_step(
    number: u32,
    slots: &[u32; SLOTS],
    goal: &[u32; SLOTS],
    memory: &[u8],
    wanted: &[u8],
    mark: usize,
    next: usize,
    journal: &[u8],
    record: &[u8],
    timely: bool,
) -> Result<(), Difference>
    ensures { TellsAgrees result
        (StepAgrees number slots.now goal.now memory.now wanted.now mark next
        journal.now «record».now timely) }
{
    if number != 0 {
        return Err(Difference::StepRefused);
    }
    if !same_slots(slots, goal) {
        return Err(Difference::StepSlots);
    }
    if !same(memory, wanted) {
        return Err(Difference::StepMemory);
    }
    if mark != next {
        return Err(Difference::StepMark);
    }
    if !same(journal, record) {
        return Err(Difference::StepJournal);
    }
    if !timely {
        return Err(Difference::StepClocks);
    }
    Ok(())
}

// The same of an undo.
pub fn of_undo(
    number: u64,
    due: u64,
    slots: &[u32; SLOTS],
    goal: &[u32; SLOTS],
    memory: &[u8],
    wanted: &[u8],
    mark: usize,
    last: usize,
) -> Result<(), Difference>
    ensures { TellsAgrees result
        (UndoAgrees number due slots.now goal.now memory.now wanted.now mark last) }
{
    if number != due {
        return Err(Difference::UndoNumber);
    }
    if !same_slots(slots, goal) {
        return Err(Difference::UndoSlots);
    }
    if !same(memory, wanted) {
        return Err(Difference::UndoMemory);
    }
    if mark != last {
        return Err(Difference::UndoMark);
    }
    Ok(())
}
