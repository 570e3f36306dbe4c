// trying.rt - one case: its step and the undo of it, each compared whole with what the line lists.
// Means: what agrees is equal, of the two that compare; else nothing, proved safe.
// Uses: codes, keeping, machine, compare.  Source: [01 Calls and what they give back], crates/vectors/README.md.
ghost use Rattle.std.specs.Prelude.{◌≡◌, OnOk};

use crate::fields::{Case, Lists};
use crate::setting::{change_slots, clear_runs, fill, put_bytes, put_runs, put_slots};
use crate::tally::Finding;
use crate::text::number;
use codes::SLOTS;
use compare::verdicts::{Difference, of_step, of_undo};

// the mark that a step is given: bytes before it are seen to stay
const MARK: usize = 1000;

// bytes of a journal
const JOURNAL: usize = 4096;

// The mark after the step.
fn next_mark(case: &Case<'_>) -> usize {
    MARK + case.record.len() / 2
}

// Slots and memory before the step.
fn put_before(
    case: &Case<'_>,
    slots: &mut [u32; SLOTS],
    memory: &mut [u8],
) -> Result<(), Difference> {
    put_slots(case.before.slots, slots).ok_or(Difference::NoCase)?;
    put_runs(case.before.runs, memory).ok_or(Difference::NoCase)
}

// What is then other.
fn change(lists: Lists<'_>, slots: &mut [u32; SLOTS], memory: &mut [u8]) -> Result<(), Difference> {
    change_slots(lists.slots, slots).ok_or(Difference::NoCase)?;
    put_runs(lists.runs, memory).ok_or(Difference::NoCase)
}

// The level and the vector of the step's request.
fn request(case: &Case<'_>) -> Option<(u32, u8)> {
    let level = number(case.level)?;
    let vector = u8::try_from(number(case.vector)?).ok()?;
    Some((level, vector))
}

// Takes the step, and compares with the goal. Only where slots, memory and journal are equal does it agree.
fn compare_step(
    case: &Case<'_>,
    slots: &mut [u32; SLOTS],
    goal: &[u32; SLOTS],
    memory: &mut [u8],
    wanted: &[u8],
    rom: &[u8],
    journal: &mut [u8],
    record: &[u8],
) -> Result<(), Difference>
    ensures slots_after { OnOk result (slots.new ≡ goal.now) }
    ensures memory_after { OnOk result (memory.new ≡ wanted.now) }
    ensures journal_after { OnOk result (journal.new ≡ «record».now) }
{
    let (level, vector) = request(case).ok_or(Difference::NoCase)?;
    let answer = keeping::step_keeping(
        slots,
        case.window,
        memory,
        rom,
        level,
        vector,
        journal,
        MARK,
    );
    of_step(
        answer.number,
        slots,
        goal,
        memory,
        wanted,
        answer.mark,
        next_mark(case),
        journal,
        record,
        case.has_clocks(answer.clocks),
    )
}

// Undoes the step, and compares with the goal. Only where slots and memory are equal does it agree.
fn compare_undo(
    case: &Case<'_>,
    slots: &mut [u32; SLOTS],
    goal: &[u32; SLOTS],
    memory: &mut [u8],
    wanted: &[u8],
    rom: &[u8],
    journal: &[u8],
) -> Result<(), Difference>
    ensures slots_after { OnOk result (slots.new ≡ goal.now) }
    ensures memory_after { OnOk result (memory.new ≡ wanted.now) }
{
    let (number, mark) = match case.undone {
        Some(undone) => (u64::from(undone.number), undone.mark),
        None => (0, MARK),
    };
    let answer = machine::undo(slots, case.window, memory, rom, journal, next_mark(case));
    of_undo(
        answer.number as u64,
        number,
        slots,
        goal,
        memory,
        wanted,
        answer.mark,
        mark,
    )
}

// Both, on memories and a ROM of the lengths that the line says. What they hold is cleared before.
fn compare_both(
    case: &Case<'_>,
    memory: &mut [u8],
    wanted: &mut [u8],
    rom: &mut [u8],
) -> Result<(), Difference> {
    let mut slots = [0u32; SLOTS];
    let mut goal = [0u32; SLOTS];
    let mut journal = [0u8; JOURNAL];
    let mut record = [0u8; JOURNAL];
    memory.fill(0);
    wanted.fill(0);
    rom.fill(0);
    fill(&mut journal);
    fill(&mut record);
    case.put_rom(rom).ok_or(Difference::NoCase)?;
    put_before(case, &mut slots, memory)?;
    put_before(case, &mut goal, wanted)?;
    change(case.after, &mut goal, wanted)?;
    put_bytes(case.record, &mut record, MARK).ok_or(Difference::NoCase)?;
    compare_step(
        case,
        &mut slots,
        &goal,
        memory,
        wanted,
        rom,
        &mut journal,
        &record,
    )?;
    clear_runs(case.after.runs, wanted).ok_or(Difference::NoCase)?;
    put_before(case, &mut goal, wanted)?;
    if let Some(undone) = case.undone {
        change(undone.lists, &mut goal, wanted)?;
    }
    compare_undo(case, &mut slots, &goal, memory, wanted, rom, &journal)
}

// What a case shows, on a part of two memories and of a ROM, whatever they hold; it is skipped where one has too little room.
pub fn try_on(
    case: &Case<'_>,
    memory: &mut [u8],
    wanted: &mut [u8],
    rom: &mut [u8],
) -> Finding<Difference> {
    let n = case.memory_length;
    let memory = memory.get_mut(..n);
    let wanted = wanted.get_mut(..n);
    let rom = rom.get_mut(..case.rom_length());
    match (memory, wanted, rom) {
        (Some(memory), Some(wanted), Some(rom)) => Finding::from(compare_both(
            case, memory, wanted, rom,
        )),
        _ => Finding::Skipped,
    }
}
