// lib.rt - the calls from C: reset, step and run in both manners, undo, the tryer, with the state in a lent block of 80 bytes; the two
// conversions of a journal; the part of memory or ROM. No `requires`.  Exported to C by crate ibezofanle_c; declared for C in c/ibezofanle.h.
// Means: Calls and Promises of the crate block_calls, Promises of forms, Part of part, where the laws and the theorems stand.
// Uses: bus, refusals, block, calls, block_calls, part, keeping, machine, tries, forms.  Source: [K1], [K2], [K5], [K7], [K8], [K10].
#![tactic(auto)]

ghost use Rattle.bus.specs.Bus.{board_of};
ghost use Rattle.calls.specs.declared.Manner.TheVariants.{Dropping, Keeping};
ghost use Rattle.block_calls.specs.Promises.{IbzResetPromise, IbzStepPromise, IbzRunPromise, IbzUndoPromise};
ghost use Rattle.block_calls.specs.Tries.{IbzTryPromise, IbzBackPromise};
ghost use Rattle.part.specs.Part.{PartPromise};
ghost use Rattle.forms.specs.declared.Form.TheVariants.{One, Two};
ghost use Rattle.forms.specs.Promises.{ConvertPromise};

use block::BLOCK_LENGTH;
use bus::Window;
use calls::{ResetAnswer, RunAnswer, StepAnswer, UndoAnswer};
use forms::FormAnswer;
use refusals::Refusal;
use tries::{BackAnswer, TryAnswer};

// Reset. It does not write memory.
pub fn ibz_reset(block: &mut [u8], memory: &[u8], rom: &[u8]) -> ResetAnswer
    ensures { IbzResetPromise block.old memory.now rom.now block.new result }
{
    if block.len() != BLOCK_LENGTH {
        return ResetAnswer::refused(Refusal::Block);
    }
    let mut slots = block::slots_in(block);
    let a = machine::reset(&mut slots, memory, rom);
    block::put_block(block, &slots);
    a
}

// ---- step and run that drop the oldest records where the journal is full

pub fn ibz_step(
    block: &mut [u8],
    lo: u32,
    hi: u32,
    memory: &mut [u8],
    rom: &[u8],
    level: u32,
    vector: u8,
    journal: &mut [u8],
    mark: usize,
) -> StepAnswer
    ensures { IbzStepPromise Dropping block.old (board_of (record { lo = lo; hi = hi }) rom.now) memory.old level vector journal.old mark block.new memory.new journal.new result }
{
    if block.len() != BLOCK_LENGTH {
        return StepAnswer::refused(Refusal::Block, mark);
    }
    let mut slots = block::slots_in(block);
    let win = Window { lo, hi };
    let a = machine::step(&mut slots, win, memory, rom, level, vector, journal, mark);
    block::put_block(block, &slots);
    a
}

pub fn ibz_run(
    block: &mut [u8],
    lo: u32,
    hi: u32,
    memory: &mut [u8],
    rom: &[u8],
    budget: u32,
    stop: u32,
    journal: &mut [u8],
    mark: usize,
) -> RunAnswer
    ensures { IbzRunPromise Dropping block.old (board_of (record { lo = lo; hi = hi }) rom.now) memory.old budget stop journal.old mark block.new memory.new journal.new result }
{
    if block.len() != BLOCK_LENGTH {
        return RunAnswer::refused(Refusal::Block, mark);
    }
    let mut slots = block::slots_in(block);
    let win = Window { lo, hi };
    let a = machine::run(&mut slots, win, memory, rom, budget, stop, journal, mark);
    block::put_block(block, &slots);
    a
}

// ---- step and run that keep all records, and take no step where the journal is full

pub fn ibz_step_keeping(
    block: &mut [u8],
    lo: u32,
    hi: u32,
    memory: &mut [u8],
    rom: &[u8],
    level: u32,
    vector: u8,
    journal: &mut [u8],
    mark: usize,
) -> StepAnswer
    ensures { IbzStepPromise Keeping block.old (board_of (record { lo = lo; hi = hi }) rom.now) memory.old level vector journal.old mark block.new memory.new journal.new result }
{
    if block.len() != BLOCK_LENGTH {
        return StepAnswer::refused(Refusal::Block, mark);
    }
    let mut slots = block::slots_in(block);
    let win = Window { lo, hi };
    let a = keeping::step_keeping(&mut slots, win, memory, rom, level, vector, journal, mark);
    block::put_block(block, &slots);
    a
}

pub fn ibz_run_keeping(
    block: &mut [u8],
    lo: u32,
    hi: u32,
    memory: &mut [u8],
    rom: &[u8],
    budget: u32,
    stop: u32,
    journal: &mut [u8],
    mark: usize,
) -> RunAnswer
    ensures { IbzRunPromise Keeping block.old (board_of (record { lo = lo; hi = hi }) rom.now) memory.old budget stop journal.old mark block.new memory.new journal.new result }
{
    if block.len() != BLOCK_LENGTH {
        return RunAnswer::refused(Refusal::Block, mark);
    }
    let mut slots = block::slots_in(block);
    let win = Window { lo, hi };
    let a = keeping::run_keeping(&mut slots, win, memory, rom, budget, stop, journal, mark);
    block::put_block(block, &slots);
    a
}

// ---- undo

pub fn ibz_undo(
    block: &mut [u8],
    lo: u32,
    hi: u32,
    memory: &mut [u8],
    rom: &[u8],
    journal: &[u8],
    mark: usize,
) -> UndoAnswer
    ensures { IbzUndoPromise block.old (board_of (record { lo = lo; hi = hi }) rom.now) memory.old journal.now mark block.new memory.new result }
{
    if block.len() != BLOCK_LENGTH {
        return UndoAnswer::refused(Refusal::Block, mark);
    }
    let mut slots = block::slots_in(block);
    let win = Window { lo, hi };
    let a = machine::undo(&mut slots, win, memory, rom, journal, mark);
    block::put_block(block, &slots);
    a
}

// ---- the pattern tryer

pub fn ibz_try(
    block: &mut [u8],
    lo: u32,
    hi: u32,
    memory: &mut [u8],
    rom: &[u8],
    count: u32,
    journal: &mut [u8],
    mark: usize,
) -> TryAnswer
    ensures { IbzTryPromise block.old (board_of (record { lo = lo; hi = hi }) rom.now) memory.old count journal.old mark block.new memory.new journal.new result }
{
    if block.len() != BLOCK_LENGTH {
        return TryAnswer::refused(Refusal::Block, mark);
    }
    let mut slots = block::slots_in(block);
    let win = Window { lo, hi };
    let a = tries::try_pattern(&mut slots, win, memory, rom, count, journal, mark);
    block::put_block(block, &slots);
    a
}

pub fn ibz_take_back(
    block: &mut [u8],
    lo: u32,
    hi: u32,
    memory: &mut [u8],
    rom: &[u8],
    journal: &[u8],
    mark: usize,
    steps: u32,
    old_lo: u32,
    old_hi: u32,
) -> BackAnswer
    ensures { IbzBackPromise block.old (board_of (record { lo = lo; hi = hi }) rom.now) memory.old journal.now mark steps (record { lo = old_lo; hi = old_hi }) block.new memory.new result }
{
    if block.len() != BLOCK_LENGTH {
        return BackAnswer {
            number: u32::from(Refusal::Block),
            undone: 0,
            mark,
            lo,
            hi,
        };
    }
    let mut slots = block::slots_in(block);
    let win = Window { lo, hi };
    let old = Window {
        lo: old_lo,
        hi: old_hi,
    };
    let a = tries::take_back(&mut slots, win, memory, rom, journal, mark, steps, old);
    block::put_block(block, &slots);
    a
}

// ---- the part of memory or of ROM that holds an address and a length: no state is lent, and no block is asked for

// An exported function can not return a reference: the part is written where the caller says, and the number is returned.
pub fn ibz_part<'a, 'b>(
    memory: &'a [u8],
    rom: &'a [u8],
    address: u64,
    length: u64,
    found: &'b mut &'a [u8],
) -> u32
    ensures { PartPromise memory.entry rom.entry address length result found.new }
{
    let mut number: u32 = 0;
    *found = part::part(memory, rom, address, length, &mut number);
    number
}

// ---- form 2, for posting: no state is lent, and no block is asked for

pub fn ibz_to_form_two(journal: &[u8], target: &mut [u8]) -> FormAnswer
    ensures { ConvertPromise One journal.now target.old target.new result }
{
    forms::to_form_two(journal, target)
}

pub fn ibz_to_form_one(journal: &[u8], target: &mut [u8]) -> FormAnswer
    ensures { ConvertPromise Two journal.now target.old target.new result }
{
    forms::to_form_one(journal, target)
}
