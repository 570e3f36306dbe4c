// lib.rt - a whole journal converted from form 1 into form 2, for posting, and back.
// Means: specs/Forms.antt, specs/Promises.antt.  Laws: proofs/RecordLaws, JournalLaws, ConvertLaws, FormLaws.
// Uses: runs, oldest, undo, record, numbers, codes.  Source: [K8].
#![tactic(auto)]

ghost use Rattle.std.specs.Prelude.{◌≡◌, ◌+◌, ◌≤◌, ◌<◌, map, length};
ghost use Rattle.numbers.specs.Number.{back};
ghost use Rattle.record.specs.Limits.{slot_limit, byte_limit, longest_record_two};
ghost use Rattle.record.specs.Change.{unpack, changes_bytes};
ghost use Rattle.runs.specs.Answers.{LoggedIs, BytesPut, PartPut};
ghost use Rattle.forms.specs.declared.Form.TheVariants.{One, Two};
ghost use Rattle.forms.specs.Forms.{other, record_in, read_in, convert};
ghost use Rattle.forms.specs.Promises.{ConvertPromise};
ghost use Rattle.forms.specs.Answers.{part_bytes, part_count, ConvertedIs, Less, MeasuredIs, refusal};

use numbers::put_number;
use record::Put;
use record::limits::{BYTE_LIMIT, LONGEST_RECORD_TWO, SLOT_LIMIT};
use runs::Logged;
use runs::put::put_runs;
use runs::read::shaped_two;
use undo::shaped_record;

// The forms of a journal: the one that steps write, and the one for posting.
#[derive(Clone, Copy, PartialEq, Eq)]
pub enum Form {
    One,
    Two,
}

// A record that was converted: its length in the other form, and where it starts in the journal.
#[derive(Clone, Copy)]
pub struct Converted {
    pub length: usize,
    pub start: usize,
}

// Why a journal is not converted: a record of it is not well shaped, or the target is too short.
#[derive(Clone, Copy, PartialEq, Eq)]
pub enum Unfit {
    NotShaped,
    TooShort,
}

// The number, 0 or a refusal, and the length of the other form. C reads it, so it is no Result.
#[repr(C)]
#[derive(Clone, Copy)]
pub struct FormAnswer {
    pub number: u32,
    pub length: usize,
}

// Addresses are below this.
const ADDRESSES: usize = codes::ADDRESSES as usize;

// The refusals: a record is not well shaped; the target is too short.
const NOT_SHAPED: u32 = 8;

const TOO_SHORT: u32 = 11;

// The number of a refusal.
impl From<Unfit> for u32 {
    ghost from_gives = { λ unfit number. number ≡ refusal unfit };

    fn from(unfit: Unfit) -> u32 {
        match unfit {
            Unfit::NotShaped => NOT_SHAPED,
            Unfit::TooShort => TOO_SHORT,
        }
    }
}

// The form that a journal is converted into.
fn other(form: Form) -> Form
    ensures { result ≡ other form }
{
    match form {
        Form::One => Form::Two,
        Form::Two => Form::One,
    }
}

// ---- one record

// Reads the well-shaped record of form 1 that ends at the mark.
fn read_one(journal: &[u8], mark: usize, slots: &mut [u64], bytes: &mut [u64]) -> Option<Logged>
    requires { (mark ≤ length journal.now) × (slot_limit ≤ length slots.old) × (byte_limit ≤ length bytes.old) }
    ensures { LoggedIs (read_in One (back journal.now mark)) journal.now mark slots.new bytes.new result }
{
    let last = shaped_record(journal, mark, ADDRESSES, slots, bytes)?;
    Some(Logged {
        slots: last.slots,
        from: 0,
        to: last.bytes,
        start: last.start,
    })
}

// Reads the well-shaped record that ends at the mark.
pub fn read_in(
    form: Form,
    journal: &[u8],
    mark: usize,
    slots: &mut [u64],
    bytes: &mut [u64],
) -> Option<Logged>
    requires { (mark ≤ length journal.now) × (slot_limit ≤ length slots.old) × (byte_limit ≤ length bytes.old) }
    ensures { LoggedIs (read_in form (back journal.now mark)) journal.now mark slots.new bytes.new result }
{
    match form {
        Form::One => read_one(journal, mark, slots, bytes),
        Form::Two => shaped_two(journal, mark, slots, bytes),
    }
}

// Writes the changes that a log holds.
fn put_changes(out: &mut [u8], at: usize, log: &[u64]) -> Put
    requires { (length log.now ≤ byte_limit) × (at + length (changes_bytes (map unpack log.now)) ≤ length out.old) }
    ensures { PartPut out.old at (changes_bytes (map unpack log.now)) (length (map unpack log.now)) out.new result }
{
    let mut p = at;
    for e in log {
        p = put_number(out, p, (*e / 4294967296) as u32);
        p = put_number(out, p, (*e % 4294967296) as u32);
    }
    Put {
        at: p,
        count: log.len() as u32,
    }
}

// Writes the part of a record that has the memory's changes: those that a log holds.
fn put_part(form: Form, out: &mut [u8], at: usize, log: &[u64]) -> Put
    requires { (length log.now ≤ byte_limit) × (at + length (part_bytes form (map unpack log.now)) ≤ length out.old) }
    ensures { PartPut out.old at (part_bytes form (map unpack log.now)) (part_count form (map unpack log.now)) out.new result }
{
    match form {
        Form::One => put_changes(out, at, log),
        Form::Two => put_runs(out, at, log, 0, log.len()),
    }
}

// Writes a record at the start of out: the slots' changes and the memory's, as two logs hold them.
fn put_in(form: Form, out: &mut [u8], slots: &[u64], bytes: &[u64]) -> usize
    requires few { (length slots.now ≤ slot_limit) × (length bytes.now ≤ byte_limit) }
    requires room { length (record_in form (record { slots = map unpack slots.now; bytes = map unpack bytes.now })) ≤ length out.old }
    ensures { BytesPut out.old 0 (record_in form (record { slots = map unpack slots.now; bytes = map unpack bytes.now })) out.new result }
{
    let a = put_changes(out, 0, slots);
    let b = put_part(form, out, a.at, bytes);
    let p = put_number(out, b.at, a.count);
    put_number(out, p, b.count)
}

// Puts the record that ends at the mark into the first bytes of out, in the other form.
fn convert_record(form: Form, journal: &[u8], mark: usize, out: &mut [u8]) -> Option<Converted>
    requires { (mark ≤ length journal.now) × (longest_record_two ≤ length out.old) }
    ensures { ConvertedIs form journal.now mark out.new result }
{
    let mut s = [0u64; SLOT_LIMIT];
    let mut b = [0u64; BYTE_LIMIT];
    let r = read_in(form, journal, mark, &mut s, &mut b)?;
    let length = put_in(other(form), out, &s[..r.slots], &b[r.from..r.to]);
    Some(Converted {
        length,
        start: r.start,
    })
}

// ---- a whole journal: measured on a first way back, and written on a second

// The space after n bytes more are taken, if there was enough.
fn less(space: Option<usize>, n: usize) -> Option<usize>
    ensures { Less space n result }
{
    space?.checked_sub(n)
}

// The length of the journal in the other form, if every record is well shaped and space bytes suffice. Where they do not the way goes on:
// a record that is not well shaped comes first.
fn measure(form: Form, journal: &[u8], space: usize) -> Result<usize, Unfit>
    ensures { MeasuredIs form journal.now space result }
{
    let mut out = [0u8; LONGEST_RECORD_TWO];
    let mut e = journal.len();
    let mut left = Some(space);
    // Stays a while: where the record before ends is known once this one is read.
    while 0 < e {
        let r = convert_record(form, journal, e, &mut out).ok_or(Unfit::NotShaped)?;
        left = less(left, r.length);
        e = r.start;
    }
    Ok(space - left.ok_or(Unfit::TooShort)?)
}

// Writes the journal in the other form, the last record first, into the first total bytes of target.
fn write_back(form: Form, journal: &[u8], target: &mut [u8], total: usize)
    requires { MeasuredIs form journal.now (length target.old) (Ok total) }
    ensures { target.new ≡ (convert form journal.now target.old).target }
{
    let mut out = [0u8; LONGEST_RECORD_TWO];
    let mut e = journal.len();
    let mut p = total;
    // Not while let: that would look for one record more at place 0, which is most of what a short journal costs.
    while 0 < e {
        let Some(r) = convert_record(form, journal, e, &mut out) else {
            return;
        };
        p -= r.length;
        target[p..p + r.length].copy_from_slice(&out[..r.length]);
        e = r.start;
    }
}

// Converts a whole journal into the other form.
pub fn convert(form: Form, journal: &[u8], target: &mut [u8]) -> FormAnswer
    ensures { ConvertPromise form journal.now target.old target.new result }
{
    match measure(form, journal, target.len()) {
        Ok(n) => {
            write_back(form, journal, target, n);
            FormAnswer {
                number: 0,
                length: n,
            }
        }
        Err(unfit) => FormAnswer {
            number: u32::from(unfit),
            length: 0,
        },
    }
}

// Converts a whole journal of form 1 into form 2.
pub fn to_form_two(journal: &[u8], target: &mut [u8]) -> FormAnswer
    ensures { ConvertPromise One journal.now target.old target.new result }
{
    convert(Form::One, journal, target)
}

// Converts a whole journal of form 2 into form 1.
pub fn to_form_one(journal: &[u8], target: &mut [u8]) -> FormAnswer
    ensures { ConvertPromise Two journal.now target.old target.new result }
{
    convert(Form::Two, journal, target)
}
