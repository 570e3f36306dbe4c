// lib.rt - the static library for C: the calls of crate ibezofanle under the same names, with the same clauses, and nothing of its own.
// Means: what ibezofanle's calls mean.  Declared for C in c/ibezofanle.h.
// Uses: ibezofanle, and the crates whose words the clauses cite.  Source: [K1], [K2], [K5], [K7], [K8], [K10].
#![tactic(auto)]

ghost use Rattle.bus.specs.Bus.{board_of};
ghost use Rattle.calls.specs.declared.Manner.TheVariants.{Dropping, Keeping};
ghost use Rattle.block_calls.specs.Promises.{IbzResetPromise, IbzStepPromise, IbzRunPromise, IbzUndoPromise};
ghost use Rattle.block_calls.specs.Tries.{IbzTryPromise, IbzBackPromise};
ghost use Rattle.part.specs.Part.{PartPromise};
ghost use Rattle.forms.specs.declared.Form.TheVariants.{One, Two};
ghost use Rattle.forms.specs.Promises.{ConvertPromise};

use calls::{ResetAnswer, RunAnswer, StepAnswer, UndoAnswer};
use forms::FormAnswer;
use tries::{BackAnswer, TryAnswer};

#[unsafe(no_mangle)]
pub extern "C" fn ibz_reset(block: &mut [u8], memory: &[u8], rom: &[u8]) -> ResetAnswer
    ensures { IbzResetPromise block.old memory.now rom.now block.new result }
{
    ibezofanle::ibz_reset(block, memory, rom)
}

#[unsafe(no_mangle)]
pub extern "C" fn ibz_step(
    block: &mut [u8],
    lo: u32,
    hi: u32,
    memory: &mut [u8],
    rom: &[u8],
    level: u32,
    vector: u8,
    journal: &mut [u8],
    mark: usize,
) -> StepAnswer
    ensures { IbzStepPromise Dropping block.old (board_of (record { lo = lo; hi = hi }) rom.now) memory.old level vector journal.old mark block.new memory.new journal.new result }
{
    ibezofanle::ibz_step(block, lo, hi, memory, rom, level, vector, journal, mark)
}

#[unsafe(no_mangle)]
pub extern "C" fn ibz_run(
    block: &mut [u8],
    lo: u32,
    hi: u32,
    memory: &mut [u8],
    rom: &[u8],
    budget: u32,
    stop: u32,
    journal: &mut [u8],
    mark: usize,
) -> RunAnswer
    ensures { IbzRunPromise Dropping block.old (board_of (record { lo = lo; hi = hi }) rom.now) memory.old budget stop journal.old mark block.new memory.new journal.new result }
{
    ibezofanle::ibz_run(block, lo, hi, memory, rom, budget, stop, journal, mark)
}

#[unsafe(no_mangle)]
pub extern "C" fn ibz_step_keeping(
    block: &mut [u8],
    lo: u32,
    hi: u32,
    memory: &mut [u8],
    rom: &[u8],
    level: u32,
    vector: u8,
    journal: &mut [u8],
    mark: usize,
) -> StepAnswer
    ensures { IbzStepPromise Keeping block.old (board_of (record { lo = lo; hi = hi }) rom.now) memory.old level vector journal.old mark block.new memory.new journal.new result }
{
    ibezofanle::ibz_step_keeping(block, lo, hi, memory, rom, level, vector, journal, mark)
}

#[unsafe(no_mangle)]
pub extern "C" fn ibz_run_keeping(
    block: &mut [u8],
    lo: u32,
    hi: u32,
    memory: &mut [u8],
    rom: &[u8],
    budget: u32,
    stop: u32,
    journal: &mut [u8],
    mark: usize,
) -> RunAnswer
    ensures { IbzRunPromise Keeping block.old (board_of (record { lo = lo; hi = hi }) rom.now) memory.old budget stop journal.old mark block.new memory.new journal.new result }
{
    ibezofanle::ibz_run_keeping(block, lo, hi, memory, rom, budget, stop, journal, mark)
}

#[unsafe(no_mangle)]
pub extern "C" fn ibz_undo(
    block: &mut [u8],
    lo: u32,
    hi: u32,
    memory: &mut [u8],
    rom: &[u8],
    journal: &[u8],
    mark: usize,
) -> UndoAnswer
    ensures { IbzUndoPromise block.old (board_of (record { lo = lo; hi = hi }) rom.now) memory.old journal.now mark block.new memory.new result }
{
    ibezofanle::ibz_undo(block, lo, hi, memory, rom, journal, mark)
}

#[unsafe(no_mangle)]
pub extern "C" fn ibz_try(
    block: &mut [u8],
    lo: u32,
    hi: u32,
    memory: &mut [u8],
    rom: &[u8],
    count: u32,
    journal: &mut [u8],
    mark: usize,
) -> TryAnswer
    ensures { IbzTryPromise block.old (board_of (record { lo = lo; hi = hi }) rom.now) memory.old count journal.old mark block.new memory.new journal.new result }
{
    ibezofanle::ibz_try(block, lo, hi, memory, rom, count, journal, mark)
}

#[unsafe(no_mangle)]
pub extern "C" fn ibz_take_back(
    block: &mut [u8],
    lo: u32,
    hi: u32,
    memory: &mut [u8],
    rom: &[u8],
    journal: &[u8],
    mark: usize,
    steps: u32,
    old_lo: u32,
    old_hi: u32,
) -> BackAnswer
    ensures { IbzBackPromise block.old (board_of (record { lo = lo; hi = hi }) rom.now) memory.old journal.now mark steps (record { lo = old_lo; hi = old_hi }) block.new memory.new result }
{
    ibezofanle::ibz_take_back(
        block, lo, hi, memory, rom, journal, mark, steps, old_lo, old_hi,
    )
}

#[unsafe(no_mangle)]
pub extern "C" fn ibz_part<'a, 'b>(
    memory: &'a [u8],
    rom: &'a [u8],
    address: u64,
    length: u64,
    found: &'b mut &'a [u8],
) -> u32
    ensures { PartPromise memory.entry rom.entry address length result found.new }
{
    ibezofanle::ibz_part(memory, rom, address, length, found)
}

#[unsafe(no_mangle)]
pub extern "C" fn ibz_to_form_two(journal: &[u8], target: &mut [u8]) -> FormAnswer
    ensures { ConvertPromise One journal.now target.old target.new result }
{
    ibezofanle::ibz_to_form_two(journal, target)
}

#[unsafe(no_mangle)]
pub extern "C" fn ibz_to_form_one(journal: &[u8], target: &mut [u8]) -> FormAnswer
    ensures { ConvertPromise Two journal.now target.old target.new result }
{
    ibezofanle::ibz_to_form_one(journal, target)
}
