// lib.rt - step and run in the manner that keeps all records: where the journal is full no step is taken. No call has a `requires`.
// Means: Calls and Promises of the crate calls at Keeping, where the theorems stand.  Laws: proofs/CallLaws.antt, proofs/LoopLaws.antt.
// Uses: codes, bits, bus, record, refusals, calls, answers, taken.  Source: [01 Calls and what they give back], [01 The journal], [K2], [K5], [K7], [K10].
#![tactic(auto)]

ghost use Rattle.std.specs.Prelude.{◌≡◌, true, ◌≤◌, length};
ghost use Rattle.bus.specs.Bus.{board_of};
ghost use Rattle.codes.specs.Codes.{MostSteps};
ghost use Rattle.record.specs.Limits.{byte_limit};
ghost use Rattle.calls.specs.Calls.{memory_fits, state_fits, running};
ghost use Rattle.keeping.specs.Loop.{Ends};
ghost use Rattle.calls.specs.declared.Manner.TheVariants.{Keeping};
ghost use Rattle.calls.specs.Promises.{StepPromise, RunPromise};

use bus::Window;
use calls::{Manner, RunAnswer, StepAnswer};
use codes::SLOTS;
use record::limits::{BYTE_LIMIT, LONGEST_RECORD};

pub fn step_keeping(
    slots: &mut [u32; SLOTS],
    win: Window,
    memory: &mut [u8],
    rom: &[u8],
    level: u32,
    vector: u8,
    journal: &mut [u8],
    mark: usize,
) -> StepAnswer
    ensures { StepPromise Keeping (board_of win rom.now) slots.old memory.old level vector journal.old mark slots.new memory.new journal.new result }
{
    if let Err(refusal) = answers::judge_step(
        Manner::Keeping,
        slots,
        win,
        memory,
        rom,
        level,
        journal,
        mark,
    ) {
        return StepAnswer::refused(refusal, mark);
    }
    let mut log = [0u64; BYTE_LIMIT];
    taken::step_taken(
        slots,
        win,
        memory,
        rom,
        level,
        bits::wide(vector),
        journal,
        mark,
        &mut log,
    )
}

// The steps of a run: it ends at the first reason that holds. The budget is one that is not refused, so the sum of the clocks fits.
// A run that drops records begins with it too (crate machine).
pub fn running(
    slots: &mut [u32; SLOTS],
    win: Window,
    memory: &mut [u8],
    rom: &[u8],
    budget: u32,
    stop: u32,
    journal: &mut [u8],
    mark: usize,
    log: &mut [u64],
) -> RunAnswer
    requires { (memory_fits memory.old ≡ true) × (mark ≤ length journal.old) × (byte_limit ≤ length log.old) × (state_fits slots.old ≡ true) × (budget ≤ MostSteps) }
    ensures slots_after { slots.new ≡ (running Keeping (board_of win rom.now) budget 0 0 0 0 stop slots.old memory.old journal.old mark).s }
    ensures memory_after { memory.new ≡ (running Keeping (board_of win rom.now) budget 0 0 0 0 stop slots.old memory.old journal.old mark).m }
    ensures journal_after { journal.new ≡ (running Keeping (board_of win rom.now) budget 0 0 0 0 stop slots.old memory.old journal.old mark).j }
    ensures value { result ≡ (running Keeping (board_of win rom.now) budget 0 0 0 0 stop slots.old memory.old journal.old mark).a }
    ensures ends { Ends budget slots.new memory.old memory.new journal.old journal.new log.old log.new result }
{
    let mut n: u32 = 0;
    let mut c: u32 = 0;
    let mut m = mark;
    let reason = loop {
        let spent = budget <= n;
        if spent {
            break 1;
        }
        let halted = slots[codes::MODE] == codes::HALTED;
        if halted {
            break 2;
        }
        let stopped = slots[codes::MODE] == codes::STOPPED;
        if stopped {
            break 3;
        }
        let short = journal.len() - m < LONGEST_RECORD;
        if short {
            break 4;
        }
        let there = slots[codes::PC] == stop;
        if there {
            break 5;
        }
        let a = taken::step_taken(slots, win, memory, rom, 0, 0, journal, m, log);
        m = a.mark;
        n += 1;
        c += a.clocks;
    };
    RunAnswer {
        number: 0,
        reason,
        mark: m,
        steps: n,
        clocks: c,
        moved: 0,
        dropped: 0,
    }
}

pub fn run_keeping(
    slots: &mut [u32; SLOTS],
    win: Window,
    memory: &mut [u8],
    rom: &[u8],
    budget: u32,
    stop: u32,
    journal: &mut [u8],
    mark: usize,
) -> RunAnswer
    ensures { RunPromise Keeping (board_of win rom.now) slots.old memory.old budget stop journal.old mark slots.new memory.new journal.new result }
{
    if let Err(refusal) = answers::judge_run(slots, win, memory, rom, budget, journal, mark) {
        return RunAnswer::refused(refusal, mark);
    }
    let mut log = [0u64; BYTE_LIMIT];
    running(
        slots, win, memory, rom, budget, stop, journal, mark, &mut log,
    )
}
