// main.rt - the papers' examples that are run and compared: ADD.B, the halt of $4AFC with an odd SSP, the journal's 535 and 536 bytes,
// budget 0, by the calls that keep all records; a full journal, in either manner; the window, which a reset gives and calls refuse; and ROM.
// Means: nothing; its stored output is the papers' text, worked out by hand.
// Uses: codes, bus, keeping, machine.  Source: [01 Set down and proved], [K5], [K7], [K10].
//
// What a call leaves is held against what the papers say, and then, so that a comparison which forgets something is seen, against the same with
// one slot or one byte altered, each of them in its turn: all of those must differ. Where an example speaks of no ROM it lends an empty one.
#![tactic(auto)]

mod board;
mod roms;

use board::{
    ALL, Board, READY, REFUSED, RESET, STALE, STALE_RUNNING, State, tell_bytes, tell_slots,
};
use bus::Window;
use std::io;

// A window that ends past memory, and one whose ends are not in their order.
const PAST: Window = Window { lo: 0, hi: 1025 };

const TURNED: Window = Window { lo: 2, hi: 1 };

// MOVEQ #1,D0, and the state after it.
const MOVEQ: u16 = 0x7001;

const AFTER_MOVEQ: State = State {
    d0: 1,
    pc: 0x202,
    ..READY
};

// The record of a mode that was 0: slot 19, old value 0, one slot, no byte.
const RECORD_OF_MODE: [u8; 4] = [19, 0, 1, 0];

// The record of MOVEQ #1,D0 at $200: slots 0 and 17, old values 0 and $200, which is 4, 0 in base 128; two slots, no byte.
const RECORD_OF_MOVEQ: [u8; 7] = [0, 0, 17, 4, 128, 2, 0];

// ADD.B D1,D0 of $7F and $01: $80, with N and V, and PC behind it.
fn add_byte(rt: &impl Print) -> io::Result<()> {
    let before = State {
        d0: 0x7F,
        d1: 1,
        ..READY
    };
    let after = State {
        d0: 0x80,
        pc: 0x202,
        sr: 0x270A,
        ..before
    };
    let mut b = Board::new(before, 0xD001);
    let a = b.step_keeping(ALL, &[], 0);
    let flags = b.slots[codes::SR] % codes::FLAG_VALUES;
    println!(rt;
        "ADD.B $7F + $01: number {}, D0 {}, flags {flags}",
        a.number, b.slots[0]
    )?;
    b.tell_machine(rt, after, 0xD001)
}

// $4AFC with SSP $301: mode 2 only.
fn odd_stack(rt: &impl Print) -> io::Result<()> {
    let before = State {
        ssp: 0x301,
        ..READY
    };
    let after = State {
        mode: codes::HALTED,
        ..before
    };
    let mut b = Board::new(before, 0x4AFC);
    let a = b.step_keeping(ALL, &[], 0);
    println!(rt;
        "$4AFC with SSP $301: number {}, mode {}, mark {}",
        a.number,
        b.slots[codes::MODE],
        a.mark
    )?;
    b.tell(rt, after, 0x4AFC, &RECORD_OF_MODE)
}

// A step with 535 journal bytes free: refused, and nothing is altered.
fn journal_too_short(rt: &impl Print) -> io::Result<()> {
    let mut b = Board::new(READY, MOVEQ);
    let mut short = [0u8; 535];
    let a = keeping::step_keeping(&mut b.slots, ALL, &mut b.memory, &[], 0, 0, &mut short, 0);
    println!(rt; "535 journal bytes: number {}", a.number)?;
    b.tell_machine(rt, READY, MOVEQ)?;
    tell_bytes(rt, "journal", &short, [0; 535])
}

// And with 536: MOVEQ #1,D0 is done.
fn journal_room(rt: &impl Print) -> io::Result<()> {
    let mut b = Board::new(READY, MOVEQ);
    let a = b.step_keeping(ALL, &[], 0);
    println!(rt; "536 journal bytes: number {}", a.number)?;
    b.tell_machine(rt, AFTER_MOVEQ, MOVEQ)
}

// A run with budget 0 on a halted machine: reason 1, and nothing is altered.
fn no_budget(rt: &impl Print) -> io::Result<()> {
    let halted = State {
        mode: codes::HALTED,
        ..READY
    };
    let mut b = Board::new(halted, 0x60FE);
    let a = keeping::run_keeping(
        &mut b.slots,
        ALL,
        &mut b.memory,
        &[],
        0,
        0,
        &mut b.journal,
        0,
    );
    println!(rt;
        "budget 0 on a halted machine: number {}, reason {}, steps {}",
        a.number, a.reason, a.steps
    )?;
    b.tell_machine(rt, halted, 0x60FE)
}

// A record of 4 bytes, and 532 free. Where all records are kept the step is refused, and nothing is altered.
fn full_kept(rt: &impl Print) -> io::Result<()> {
    let mut b = Board::new(READY, MOVEQ).recorded(&RECORD_OF_MODE);
    let a = b.step_keeping(ALL, &[], 4);
    println!(rt;
        "532 bytes free, all records kept: number {}, mark {}",
        a.number, a.mark
    )?;
    b.tell(rt, READY, MOVEQ, &RECORD_OF_MODE)
}

// Where the oldest are dropped that record goes, and MOVEQ's lies at place 0.
fn full_dropped(rt: &impl Print) -> io::Result<()> {
    let mut b = Board::new(READY, MOVEQ).recorded(&RECORD_OF_MODE);
    let a = b.step(4);
    println!(rt;
        "532 bytes free, the oldest dropped: number {}, mark {}, moved {}, dropped {}",
        a.number, a.mark, a.moved, a.dropped
    )?;
    b.tell(rt, AFTER_MOVEQ, MOVEQ, &RECORD_OF_MOVEQ)
}

// A byte that ends no record, where room is short: a step is refused, and nothing is altered.
fn torn_step(rt: &impl Print) -> io::Result<()> {
    let mut b = Board::new(READY, MOVEQ);
    let a = b.step(1);
    println!(rt;
        "a byte that is no record, a step: number {}, mark {}",
        a.number, a.mark
    )?;
    b.tell(rt, READY, MOVEQ, &[])
}

// And a run ends before its first step, for reason 6.
fn torn_run(rt: &impl Print) -> io::Result<()> {
    let mut b = Board::new(READY, MOVEQ);
    let a = b.run(ALL, 1, 512, 1);
    println!(rt;
        "a byte that is no record, a run: number {}, reason {}, steps {}",
        a.number, a.reason, a.steps
    )?;
    b.tell(rt, READY, MOVEQ, &[])
}

// A reset gives the window 0 to the memory's length; the vectors are 0.
fn reset_window(rt: &impl Print) -> io::Result<()> {
    let mut b = Board::new(STALE, MOVEQ);
    let a = b.reset(&[]);
    println!(rt; "reset: number {}, lo {}, hi {}", a.number, a.lo, a.hi)?;
    tell_slots(rt, &b.slots, RESET)
}

// And a refused one 0 and 0: memory has 1,022 bytes.
fn refused_reset_window(rt: &impl Print) -> io::Result<()> {
    let mut b = Board::new(STALE_RUNNING, MOVEQ);
    let a = machine::reset(&mut b.slots, &[0; 1022], &[]);
    println!(rt;
        "reset of 1022 bytes: number {}, lo {}, hi {}",
        a.number, a.lo, a.hi
    )?;
    tell_slots(rt, &b.slots, REFUSED)
}

// A step with a window that ends past memory: refused, and nothing is altered.
fn step_past(rt: &impl Print) -> io::Result<()> {
    let mut b = Board::new(READY, MOVEQ);
    let a = b.step_keeping(PAST, &[], 0);
    println!(rt; "a window to 1025, a step: number {}", a.number)?;
    b.tell(rt, READY, MOVEQ, &[])
}

// A run with a window whose ends are not in their order: before a budget above the limit.
fn run_turned(rt: &impl Print) -> io::Result<()> {
    let mut b = Board::new(READY, MOVEQ);
    let a = b.run(TURNED, codes::MOST_STEPS + 1, 0, 0);
    println!(rt;
        "a window from 2 to 1, a run: number {}, steps {}",
        a.number, a.steps
    )?;
    b.tell(rt, READY, MOVEQ, &[])
}

// And an undo: of a record that all of memory would let be undone.
fn undo_turned(rt: &impl Print) -> io::Result<()> {
    let halted = State {
        mode: codes::HALTED,
        ..READY
    };
    let mut b = Board::new(halted, MOVEQ).recorded(&RECORD_OF_MODE);
    let a = b.undo(TURNED, &[], 4);
    println!(rt;
        "a window from 2 to 1, an undo: number {}, mark {}",
        a.number, a.mark
    )?;
    b.tell_machine(rt, halted, MOVEQ)
}

// The halt held against what no paper says: with one altered, the right mode or the right byte comes out, and that one is the same.
fn not_said(rt: &impl Print) -> io::Result<()> {
    let halted = State {
        ssp: 0x301,
        mode: codes::HALTED,
        ..READY
    };
    rt.println("not said by the papers")?;
    Board::new(halted, 0x4AFC).tell_machine(rt, State { mode: 3, ..halted }, 0x4AFD)
}

fn main(rt: HostRuntime) -> io::Result<()> {
    add_byte(&rt)?;
    odd_stack(&rt)?;
    journal_too_short(&rt)?;
    journal_room(&rt)?;
    no_budget(&rt)?;
    full_kept(&rt)?;
    full_dropped(&rt)?;
    torn_step(&rt)?;
    torn_run(&rt)?;
    reset_window(&rt)?;
    refused_reset_window(&rt)?;
    step_past(&rt)?;
    run_turned(&rt)?;
    undo_turned(&rt)?;
    roms::show_all(&rt)?;
    not_said(&rt)
}
