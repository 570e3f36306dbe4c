// roms.rt - a ROM beside memory: which one is refused, and before what; how far a window may reach; a fetch and a read there, a write, and
// its undo.
// Means: nothing; the stored output is K10's text, worked out by hand.
// Uses: codes, bus, machine.  Source: [K10].
use crate::board::{
    ALL, Board, READY, REFUSED, RESET, STALE, STALE_RUNNING, State, memory_with, tell_bytes,
    tell_slots,
};
use crate::{MOVEQ, RECORD_OF_MODE};
use bus::Window;
use codes::ROM_START;
use std::io;

// A ROM of four bytes: MOVEQ #1,D0 and the word $8001.
const FOUR_BYTES: [u8; 4] = [0x70, 0x01, 0x80, 0x01];

// One of three bytes is none.
const THREE_BYTES: [u8; 3] = [0x70, 0x01, 0x80];

// Windows that end where the ROM of four bytes does, and a byte further.
const TO_ROM_END: Window = Window {
    lo: 0,
    hi: ROM_START + 4,
};

const PAST_ROM: Window = Window {
    lo: 0,
    hi: ROM_START + 5,
};

// User state at the ROM's start.
const IN_ROM: State = State {
    pc: ROM_START,
    sr: 0,
    ..READY
};

// User state at $200 whose stack is the ROM's second word.
const ON_ROM: State = State {
    usp: ROM_START + 2,
    sr: 0,
    ..READY
};

// The record of MOVEQ #1,D0 at $F00000: slots 0 and 17, old values 0 and $F00000, which is 7, 64, 0, 0 in base 128; two slots, no byte.
const RECORD_IN_ROM: [u8; 9] = [0, 0, 17, 7, 192, 128, 128, 2, 0];

// A reset gives the window 0 to the memory's length, and not to the ROM's end.
fn reset_beside(rt: &impl Print) -> io::Result<()> {
    let mut b = Board::new(STALE, MOVEQ);
    let a = b.reset(&FOUR_BYTES);
    println!(rt;
        "reset with a ROM: number {}, lo {}, hi {}",
        a.number, a.lo, a.hi
    )?;
    tell_slots(rt, &b.slots, RESET)
}

// With an odd ROM it is refused.
fn reset_odd(rt: &impl Print) -> io::Result<()> {
    let mut b = Board::new(STALE_RUNNING, MOVEQ);
    let a = b.reset(&THREE_BYTES);
    println!(rt;
        "reset with a ROM of 3 bytes: number {}, lo {}, hi {}",
        a.number, a.lo, a.hi
    )?;
    tell_slots(rt, &b.slots, REFUSED)
}

// The memory is judged before the ROM: it has 1,022 bytes.
fn reset_odd_beside_little(rt: &impl Print) -> io::Result<()> {
    let mut b = Board::new(STALE_RUNNING, MOVEQ);
    let a = machine::reset(&mut b.slots, &[0; 1022], &THREE_BYTES);
    println!(rt;
        "reset of 1022 bytes with a ROM of 3 bytes: number {}",
        a.number
    )?;
    tell_slots(rt, &b.slots, REFUSED)
}

// And the ROM before SR, whose bit 5 is none that there is.
fn step_odd(rt: &impl Print) -> io::Result<()> {
    let before = State {
        sr: 0x0020,
        ..READY
    };
    let mut b = Board::new(before, MOVEQ);
    let a = b.step_keeping(ALL, &THREE_BYTES, 0);
    println!(rt;
        "a ROM of 3 bytes and SR $0020, a step: number {}",
        a.number
    )?;
    b.tell(rt, before, MOVEQ, &[])
}

// An undo is refused by it too: of a record that could be undone without a ROM.
fn undo_odd(rt: &impl Print) -> io::Result<()> {
    let halted = State {
        mode: codes::HALTED,
        ..READY
    };
    let mut b = Board::new(halted, MOVEQ).recorded(&RECORD_OF_MODE);
    let a = b.undo(ALL, &THREE_BYTES, 4);
    println!(rt;
        "a ROM of 3 bytes, an undo: number {}, mark {}",
        a.number, a.mark
    )?;
    b.tell_machine(rt, halted, MOVEQ)
}

// A window may end where the ROM does: in user state MOVEQ #1,D0 is fetched there.
fn fetch_there(rt: &impl Print) -> io::Result<()> {
    let after = State {
        d0: 1,
        pc: ROM_START + 2,
        ..IN_ROM
    };
    let mut b = Board::new(IN_ROM, MOVEQ);
    let a = b.step_keeping(TO_ROM_END, &FOUR_BYTES, 0);
    println!(rt;
        "a window to the ROM's end, a step there: number {}, D0 {}, mark {}",
        a.number, b.slots[0], a.mark
    )?;
    b.tell(rt, after, MOVEQ, &RECORD_IN_ROM)
}

// One byte further is refused.
fn window_past(rt: &impl Print) -> io::Result<()> {
    let mut b = Board::new(IN_ROM, MOVEQ);
    let a = b.step_keeping(PAST_ROM, &FOUR_BYTES, 0);
    println!(rt;
        "a window to a byte past the ROM's end, a step: number {}",
        a.number
    )?;
    b.tell(rt, IN_ROM, MOVEQ, &[])
}

// MOVE.W (A7),D0 with SSP $F00002 reads $8001: N. The window does not hold the supervisor.
fn read_there(rt: &impl Print) -> io::Result<()> {
    let before = State {
        ssp: ROM_START + 2,
        ..READY
    };
    let after = State {
        d0: 0x8001,
        pc: 0x202,
        sr: 0x2708,
        ..before
    };
    let mut b = Board::new(before, 0x3017);
    let a = b.step_keeping(ALL, &FOUR_BYTES, 0);
    let flags = b.slots[codes::SR] % codes::FLAG_VALUES;
    println!(rt;
        "a word read from ROM: number {}, D0 {}, flags {flags}",
        a.number, b.slots[0]
    )?;
    b.tell_machine(rt, after, 0x3017)
}

// The frame of a write by the user to $F00002, at 1010: information word 1, the address, the operation word $3E80, SR 0, the instruction's
// address and 2 more.
fn memory_with_frame() -> [u8; 1024] {
    let mut m = memory_with(0x3E80);
    m[1010..].copy_from_slice(&[0, 1, 0, 0xF0, 0, 2, 0x3E, 0x80, 0, 0, 0, 0, 2, 2]);
    m
}

// MOVE.W D0,(A7) in user state with USP $F00002 takes vector 2, whose handler is at 0. Its record names three slots, in 8 bytes, and the
// frame's seven bytes that are not 0, in 21; with the two counts that is 31. The undo of it puts slots and frame back.
fn write_there(rt: &impl Print) -> io::Result<()> {
    let after = State {
        ssp: 1010,
        pc: 0,
        sr: 0x2000,
        ..ON_ROM
    };
    let mut b = Board::new(ON_ROM, 0x3E80);
    let a = b.step_keeping(TO_ROM_END, &FOUR_BYTES, 0);
    println!(rt;
        "a word written to ROM: number {}, event {}, mark {}",
        a.number, a.event, a.mark
    )?;
    tell_slots(rt, &b.slots, after)?;
    tell_bytes(rt, "memory", &b.memory, memory_with_frame())?;
    let u = b.undo(TO_ROM_END, &FOUR_BYTES, a.mark);
    println!(rt; "and its undo: number {}, mark {}", u.number, u.mark)?;
    b.tell_machine(rt, ON_ROM, 0x3E80)
}

pub fn show_all(rt: &impl Print) -> io::Result<()> {
    reset_beside(rt)?;
    reset_odd(rt)?;
    reset_odd_beside_little(rt)?;
    step_odd(rt)?;
    undo_odd(rt)?;
    fetch_there(rt)?;
    window_past(rt)?;
    read_there(rt)?;
    write_there(rt)
}
