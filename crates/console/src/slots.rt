// slots.rt - the slots by name, and what they hold, for a person.
// Means: nothing; proved safe.
// Uses: codes.  Source: [01 The journal], its table of slots.
use std::fmt;
use std::fmt::{Display, Formatter};

const NAMES: [&str; codes::SLOTS] = [
    "D0", "D1", "D2", "D3", "D4", "D5", "D6", "D7", "A0", "A1", "A2", "A3", "A4", "A5", "A6",
    "USP", "SSP", "PC", "SR", "mode",
];

// A slot by its number, as its name.
#[derive(Clone, Copy)]
pub struct Name(pub usize);

impl Display for Name {
    fn fmt<W: fmt::Write>(&self, f: &mut Formatter<W>) -> fmt::Result {
        f.pad(NAMES.get(self.0).copied().unwrap_or("mode"))
    }
}

// What a slot holds: SR with four digits of base 16, the mode in words, all others with eight digits.
#[derive(Clone, Copy)]
pub struct Value(pub usize, pub u32);

impl Display for Value {
    fn fmt<W: fmt::Write>(&self, f: &mut Formatter<W>) -> fmt::Result {
        match *self {
            Value(codes::SR, v) => write!(f, "{v:04x}"),
            Value(codes::MODE, codes::RUNNING) => f.write_str("running"),
            Value(codes::MODE, codes::STOPPED) => f.write_str("stopped"),
            Value(codes::MODE, _) => f.write_str("halted"),
            Value(_, v) => write!(f, "{v:08x}"),
        }
    }
}
