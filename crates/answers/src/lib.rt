// lib.rt - all of a call that takes no step: whether it is refused and why, what a reset leaves, undo's answer.
// Means: specs/Calls.antt of the crate calls, with the numbers of specs/Refusals.antt of refusals.  Laws: proofs/NumberLaws.antt.
// Uses: codes, bus, record, refusals, undo, exception, calls.  Source: [01 Calls and what they give back], [01 The journal], [K5], [K7], [K10].
#![tactic(auto)]

ghost use Rattle.std.specs.Prelude.{◌≡◌, ◌≤◌, length};
ghost use Rattle.bus.specs.Bus.{board_of};
ghost use Rattle.refusals.specs.Refusals.{number_given};
ghost use Rattle.calls.specs.Calls.{memory_fits, rom_fits, state_fits, window_end, window_fits, first_tests, reset_number, reset_slots, refused_slots, no_room, step_tests, run_number, undo_number, undo_answer};

use bus::Window;
use calls::{Manner, UndoAnswer};
use codes::SLOTS;
use record::limits::LONGEST_RECORD;
use refusals::Refusal;

// Whether memory is of a length that no call refuses.
pub fn memory_fits(memory: &[u8]) -> bool
    ensures { result ≡ memory_fits memory.now }
{
    let n = memory.len();
    n % 2 == 0 && codes::LEAST_MEMORY <= n && n <= codes::MOST_MEMORY
}

// Whether SR and mode are ones that no call refuses.
pub fn state_fits(slots: &[u32; SLOTS]) -> bool
    ensures { result ≡ state_fits slots.now }
{
    record::limits::valid_status(slots[codes::SR]) && slots[codes::MODE] <= codes::HALTED
}

// Whether a ROM is one that no call refuses beside this memory.
fn rom_fits(rom: &[u8], memory: &[u8]) -> bool
    ensures { result ≡ rom_fits rom.now memory.now }
{
    let n = rom.len();
    n % 2 == 0 && n <= codes::MOST_ROM && (n == 0 || memory.len() <= codes::ROM_START as usize)
}

// Where what a window can show ends: where memory does, or, where there is one, the ROM.
fn window_end(memory: &[u8], rom: &[u8]) -> usize
    ensures { result ≡ window_end rom.now memory.now }
{
    if rom.is_empty() {
        memory.len()
    } else {
        codes::ROM_START as usize + rom.len()
    }
}

// Whether a window is one that no call refuses.
fn window_fits(win: Window, memory: &[u8], rom: &[u8]) -> bool
    ensures { result ≡ window_fits (board_of win rom.now) memory.now }
{
    win.lo <= win.hi && win.hi as usize <= window_end(memory, rom)
}

// Whether a reset is refused: by 1 or 12.
pub fn judge_reset(memory: &[u8], rom: &[u8]) -> Result<(), Refusal>
    ensures { number_given result ≡ reset_number memory.now rom.now }
{
    if !memory_fits(memory) {
        return Err(Refusal::Memory);
    }
    if !rom_fits(rom, memory) {
        return Err(Refusal::Rom);
    }
    Ok(())
}

// What step, run and undo judge first: 1, 12, 2 and 10.
pub fn judge_first(
    slots: &[u32; SLOTS],
    win: Window,
    memory: &[u8],
    rom: &[u8],
) -> Result<(), Refusal>
    ensures { number_given result ≡ first_tests (board_of win rom.now) slots.now memory.now 0 }
{
    if !memory_fits(memory) {
        return Err(Refusal::Memory);
    }
    if !rom_fits(rom, memory) {
        return Err(Refusal::Rom);
    }
    if !state_fits(slots) {
        return Err(Refusal::State);
    }
    if !window_fits(win, memory, rom) {
        return Err(Refusal::Window);
    }
    Ok(())
}

// SSP from address 0, PC from 4, SR $2700.
pub fn reset_slots(memory: &[u8]) -> [u32; SLOTS]
    ensures { result ≡ reset_slots memory.now }
{
    let ssp = bus::read_long_anywhere(memory, 0, codes::DATA_READ, exception::fresh(0, 0));
    let pc = bus::read_long_anywhere(memory, 4, codes::DATA_READ, exception::fresh(0, 0));
    let mut slots = [0; SLOTS];
    slots[codes::SSP] = ssp.value;
    slots[codes::PC] = pc.value;
    slots[codes::SR] = codes::RESET_STATUS;
    slots
}

// The halted state that a refused reset leaves.
pub fn refused_slots() -> [u32; SLOTS]
    ensures { result ≡ refused_slots }
{
    let mut slots = [0; SLOTS];
    slots[codes::MODE] = codes::HALTED;
    slots
}

// Whether no room for one more record can be had.
fn no_room(manner: Manner, journal: &[u8], mark: usize) -> bool
    requires { mark ≤ length journal.now }
    ensures { result ≡ no_room manner journal.now mark }
{
    match manner {
        Manner::Dropping => journal.len() < LONGEST_RECORD,
        Manner::Keeping => journal.len() - mark < LONGEST_RECORD,
    }
}

// Whether a step is refused: by all but 8.
pub fn judge_step(
    manner: Manner,
    slots: &[u32; SLOTS],
    win: Window,
    memory: &[u8],
    rom: &[u8],
    level: u32,
    journal: &[u8],
    mark: usize,
) -> Result<(), Refusal>
    ensures { number_given result ≡ step_tests manner (board_of win rom.now) slots.now memory.now level journal.now mark 0 }
{
    judge_first(slots, win, memory, rom)?;
    if codes::TOP_LEVEL < level {
        return Err(Refusal::TooHigh);
    }
    if journal.len() < mark {
        return Err(Refusal::Mark);
    }
    if no_room(manner, journal, mark) {
        return Err(Refusal::NoRoom);
    }
    if slots[codes::MODE] == codes::HALTED {
        return Err(Refusal::Halted);
    }
    Ok(())
}

// Whether a run is refused.
pub fn judge_run(
    slots: &[u32; SLOTS],
    win: Window,
    memory: &[u8],
    rom: &[u8],
    budget: u32,
    journal: &[u8],
    mark: usize,
) -> Result<(), Refusal>
    ensures { number_given result ≡ run_number (board_of win rom.now) slots.now memory.now budget journal.now mark }
{
    judge_first(slots, win, memory, rom)?;
    if codes::MOST_STEPS < budget {
        return Err(Refusal::TooHigh);
    }
    if journal.len() < mark {
        return Err(Refusal::Mark);
    }
    Ok(())
}

// Whether an undo is refused: by all but 8.
pub fn judge_undo(
    slots: &[u32; SLOTS],
    win: Window,
    memory: &[u8],
    rom: &[u8],
    journal: &[u8],
    mark: usize,
) -> Result<(), Refusal>
    ensures { number_given result ≡ undo_number (board_of win rom.now) slots.now memory.now journal.now mark }
{
    judge_first(slots, win, memory, rom)?;
    if journal.len() < mark {
        return Err(Refusal::Mark);
    }
    if mark == 0 {
        return Err(Refusal::NothingToUndo);
    }
    Ok(())
}

// The answer of an undo that no other number refuses: 8 where the last record is not well formed, and so a is none.
pub fn undo_answer(mark: usize, a: Option<usize>) -> UndoAnswer
    ensures { result ≡ undo_answer mark a }
{
    match a {
        Some(start) => UndoAnswer {
            number: 0,
            mark: start,
        },
        None => UndoAnswer { number: 8, mark },
    }
}
