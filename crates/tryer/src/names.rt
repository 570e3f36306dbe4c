// names.rt - vectors and refusals by name, for a person.
// Means: nothing; proved safe.
// Uses: codes.  Source: [003 4-2], [01 Calls, table], [K7], [K10].
use std::fmt;
use std::fmt::{Display, Formatter};

// A vector's name.
#[derive(Clone, Copy)]
pub struct Vector(pub u32);

impl Display for Vector {
    fn fmt<W: fmt::Write>(&self, f: &mut Formatter<W>) -> fmt::Result {
        match self.0 {
            codes::BUS_ERROR => f.write_str("bus error"),
            codes::ADDRESS_ERROR => f.write_str("address error"),
            codes::ILLEGAL_INSTRUCTION => f.write_str("illegal instruction"),
            codes::ZERO_DIVIDE => f.write_str("zero divide"),
            codes::CHK_INSTRUCTION => f.write_str("CHK instruction"),
            codes::TRAPV_INSTRUCTION => f.write_str("TRAPV instruction"),
            codes::PRIVILEGE_VIOLATION => f.write_str("privilege violation"),
            codes::TRACE_VECTOR => f.write_str("trace"),
            codes::LINE1010 => f.write_str("line 1010 emulator"),
            codes::LINE1111 => f.write_str("line 1111 emulator"),
            0..=11 => f.write_str("reset"),
            15 => f.write_str("uninitialized interrupt"),
            24 => f.write_str("spurious interrupt"),
            v @ 25..=31 => write!(f, "autovector of interrupt level {}", v - 24),
            v @ 32..=47 => write!(f, "TRAP #{}", v - 32),
            v @ 64..=255 => write!(f, "user interrupt {}", v - 64),
            _ => f.write_str("reserved"),
        }
    }
}

// What a refusal's number says.
#[derive(Clone, Copy)]
pub struct Refusal(pub u32);

impl Display for Refusal {
    fn fmt<W: fmt::Write>(&self, f: &mut Formatter<W>) -> fmt::Result {
        f.write_str(match self.0 {
            1 => "the memory is of no length that is taken",
            2 => "SR or mode is none that there is",
            3 => "more steps are asked than the 1000000 that a try may take",
            4 => "the mark lies past the journal's end",
            5 => "the journal is full: another step may not find room for its record",
            6 => "the machine is halted",
            7 => "the journal has no record to undo",
            8 => "the journal's last bytes are no record",
            10 =>
                "the window is none: its start lies above its end, or its end above that of memory and ROM",
            12 => "the ROM is of no length that is taken, or the memory beside it too long",
            _ => "none that a try or an undo has",
        })
    }
}
