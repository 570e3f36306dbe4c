// back.rt - the way back through a file, from its end to place 0, a record at a time.
// Means: nothing; proved safe.
// Uses: forms, record, runs.  Source: [K8].
ghost use Rattle.std.specs.Prelude.{◌<◌, ◌≤◌, length, IfSome, OnSome};
ghost use Rattle.record.specs.Limits.{slot_limit, byte_limit};

use forms::{Form, read_in};
use record::limits::{BYTE_LIMIT, SLOT_LIMIT};
use runs::Logged;

// The logs that the last record was read into, and the place where it starts: at first the file's end.
#[derive(Drop)]
pub struct Back<'a> {
    form: Form,
    file: &'a [u8],
    pub end: usize,
    pub slots: [u64; SLOT_LIMIT],
    pub bytes: [u64; BYTE_LIMIT],
    ghost inside: { end ≤ length file.now },
}

impl<'a> Back<'a> {
    pub fn new(form: Form, file: &'a [u8]) -> Back<'a> {
        Back {
            form,
            file,
            end: file.len(),
            slots: [0; SLOT_LIMIT],
            bytes: [0; BYTE_LIMIT],
        }
    }

    // Reads a record and goes back over it: there is none at place 0, nor where it is not well shaped.
    pub fn read(&mut self) -> Option<Logged>
        ensures nearer { OnSome result (self.new.end < self.old.end) }
        ensures logged { IfSome result (λ r. (r.slots ≤ slot_limit) × (r.from ≤ r.to) × (r.to ≤ byte_limit)) }
    {
        if self.end == 0 {
            return None;
        }
        let record = read_in(
            self.form,
            self.file,
            self.end,
            &mut self.slots,
            &mut self.bytes,
        )?;
        self.end = record.start;
        Some(record)
    }
}

// How many records are well shaped on the way, and where it ends: at place 0, or just after one that is not well shaped.
#[derive(Clone, Copy)]
pub struct Way {
    pub records: u64,
    pub end: usize,
}

pub fn way_of(form: Form, file: &[u8]) -> Way {
    let mut back = Back::new(form, file);
    let mut records = 0u64;
    while back.read().is_some() {
        records = records.saturating_add(1);
    }
    Way {
        records,
        end: back.end,
    }
}
