// telling.rt - what is told of a file and of each record, for a person who has not seen one before.
// Means: nothing; proved safe.
// Uses: back, complaints, console, forms.  Source: [K8], crates/post/README.md.
use crate::back::Back;
use crate::complaints::number;
use console::Counted;
use console::slots::{Name, Value};
use forms::Form;
use std::fmt::{Display, Formatter};
use std::{fmt, io};

// A change of a log's entry: the slot or the address, and what it held.
#[derive(Clone, Copy)]
struct Change {
    place: usize,
    old: u32,
}

impl From<u64> for Change {
    fn from(entry: u64) -> Change {
        Change {
            place: (entry / 4294967296) as usize,
            old: (entry % 4294967296) as u32,
        }
    }
}

// Whether an entry has the address after that of another.
fn is_next(a: u64, b: u64) -> bool {
    Change::from(b).place == Change::from(a).place.wrapping_add(1)
}

// What a record says: the entries of its slots and of its bytes.
#[derive(Clone, Copy)]
struct Changes<'a> {
    slots: &'a [u64],
    bytes: &'a [u64],
}

// What stands before an item of a list.
fn comma(k: usize) -> &'static str {
    if k == 0 { "" } else { ", " }
}

impl Display for Changes<'_> {
    fn fmt<W: fmt::Write>(&self, f: &mut Formatter<W>) -> fmt::Result {
        let Changes { slots, bytes } = *self;
        if slots.is_empty() && bytes.is_empty() {
            return f.write_str("it changed nothing");
        }
        f.write_str("before it ")?;
        for (k, &entry) in slots.iter().enumerate() {
            let Change { place, old } = Change::from(entry);
            write!(f, "{}{} {}", comma(k), Name(place), Value(place, old))?;
        }
        if bytes.is_empty() {
            return Ok(());
        }
        f.write_str(if slots.is_empty() {
            "memory "
        } else {
            "; memory "
        })?;
        for (k, run) in bytes.chunk_by(|&a, &b| is_next(a, b)).enumerate() {
            let first = run.first().map_or(0, |&entry| Change::from(entry).place);
            write!(f, "{}{first:06x}:", comma(k))?;
            for &entry in run {
                write!(f, " {:02x}", Change::from(entry).old % 256)?;
            }
        }
        Ok(())
    }
}

// Tells of a file that has so many records, and each of them, the newest first.
pub fn tell(rt: &impl Print, form: Form, file: &[u8], records: u64) -> io::Result<()> {
    println!(rt;
        "form {}, {}: {}, one for each step, the newest first, as undo takes them back",
        number(form),
        Counted(file.len() as u64, "byte"),
        Counted(records, "record")
    )?;
    rt.println(
        "a line says what the registers and the memory that its step changed held before it, in base 16; \
        bytes stand after the address of the first of them",
    )?;
    let mut step = records;
    let mut back = Back::new(form, file);
    while let Some(record) = back.read() {
        let changes = Changes {
            slots: &back.slots[..record.slots],
            bytes: &back.bytes[record.from..record.to],
        };
        println!(rt; "step {step} of {records}: {changes}")?;
        step = step.saturating_sub(1);
    }
    Ok(())
}
