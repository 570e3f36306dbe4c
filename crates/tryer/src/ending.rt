// ending.rt - how many steps a try took and why it ended; of an exception what its frame says.
// Means: nothing; proved safe.
// Uses: codes, tries, console, names.  Source: [K7]; the frames are those of [003 4.3.4] and [003 4.4.9.1], the function codes of [003 4-1].
use crate::names::{Refusal, Vector};
use codes::SLOTS;
use console::Counted;
use std::io;
use tries::TryAnswer;

// Where an exception's frame lies, and its length.
#[derive(Clone, Copy)]
pub struct Frame {
    at: u32,
    length: u32,
}

impl Frame {
    // The frame that a try left on SSP, if it ended with an exception.
    pub fn of(a: TryAnswer, slots: &[u32; SLOTS]) -> Option<Frame> {
        if a.end != tries::TAKEN_EXCEPTION {
            return None;
        }
        let length = match a.vector {
            codes::BUS_ERROR | codes::ADDRESS_ERROR => 14,
            _ => 6,
        };
        Some(Frame {
            at: slots[codes::SSP] % codes::ADDRESSES,
            length,
        })
    }

    // Whether a place is one of the frame's.
    pub fn has(&self, place: usize) -> bool {
        let at = self.at as usize;
        at <= place && place - at < self.length as usize
    }
}

// The byte of memory at an address, and 0 where memory has none.
fn byte_at(memory: &[u8], at: u32) -> u8 {
    memory
        .get((at % codes::ADDRESSES) as usize)
        .copied()
        .unwrap_or(0)
}

fn word_at(memory: &[u8], at: u32) -> u16 {
    u16::from_be_bytes([byte_at(memory, at), byte_at(memory, at.wrapping_add(1))])
}

fn long_at(memory: &[u8], at: u32) -> u32 {
    u32::from(word_at(memory, at)) << 16 | u32::from(word_at(memory, at.wrapping_add(2)))
}

// From the frame's start: information word, access address, operation word, SR, PC, which is the instruction's address plus 2. Of the
// information word bit 4 is set for a read, the three lowest are the function code.
fn tell_fault(rt: &impl Print, memory: &[u8], at: u32) -> io::Result<()> {
    let info = word_at(memory, at);
    let access = long_at(memory, at.wrapping_add(2));
    let op = word_at(memory, at.wrapping_add(6));
    let instruction = long_at(memory, at.wrapping_add(10)).wrapping_sub(2);
    let is_program = info % 4 == 2;
    let space = if is_program { "program" } else { "data" };
    let kind = if info / 16 % 2 == 1 { "read" } else { "write" };
    let note = if is_program {
        " (a fetch, or an operand relative to PC)"
    } else {
        ""
    };
    let who = if info / 4 % 2 == 1 {
        "supervisor"
    } else {
        "user"
    };
    println!(rt; "  access: {space} {kind}{note} by the {who} at {access:06x}")?;
    print!(rt; "  instruction: at {instruction:06x}")?;
    if is_program && instruction % codes::ADDRESSES == access {
        rt.print(", whose operation word was not read")
    } else {
        print!(rt; ", operation word {op:04x}")
    }
}

// Whether the saved PC is that of the instruction itself: else it is that of the next one.
fn is_own(vector: u32) -> bool {
    matches!(
        vector,
        codes::ILLEGAL_INSTRUCTION | codes::PRIVILEGE_VIOLATION | codes::LINE1010 | codes::LINE1111
    )
}

// From the frame's start: SR, PC.
fn tell_saved(rt: &impl Print, memory: &[u8], at: u32, vector: u32) -> io::Result<()> {
    let pc = long_at(memory, at.wrapping_add(2));
    let whose = if is_own(vector) { "of" } else { "after" };
    print!(rt; "  saved PC: {pc:06x}, the address {whose} the instruction")
}

fn tell_exception(rt: &impl Print, vector: u32, frame: Frame, memory: &[u8]) -> io::Result<()> {
    let Frame { at, length } = frame;
    println!(rt;
        ", the last one took an exception: vector {vector}, {}",
        Vector(vector)
    )?;
    if length == 14 {
        tell_fault(rt, memory, at)?;
    } else {
        tell_saved(rt, memory, at, vector)?;
    }
    println!(rt;
        "\n  frame: {} at {at:06x}",
        Counted(u64::from(length), "byte")
    )
}

// The result of a try, and the frame that it left, if it left one.
pub fn tell(
    rt: &impl Print,
    a: TryAnswer,
    frame: Option<Frame>,
    slots: &[u32; SLOTS],
    memory: &[u8],
) -> io::Result<()> {
    print!(rt; "result: {}", Counted(u64::from(a.steps), "step"))?;
    if let Some(frame) = frame {
        return tell_exception(rt, a.vector, frame, memory);
    }
    match a.end {
        tries::SPENT => rt.println(", ended since all that were allowed are spent"),
        tries::SUPERVISED => rt.println(": the start is in supervisor state, which is not tried"),
        tries::HALT => println!(rt;
            ", the last one halted: the frame of its exception cannot be written below SSP {:06x}, or the handler of its fault is at an odd address",
            slots[codes::SSP]
        ),
        _ => println!(rt; ", ended by refusal {}: {}", a.number, Refusal(a.number)),
    }
}
