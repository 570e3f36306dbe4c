// lib.rt - undo: the last record of a journal is read from its end, judged, and put back.
// Means: specs/Undo.antt.  Laws: proofs/ReadLaws, JudgeLaws, ShapeLaws, FormedLaws, UndoLaws, ManyLaws.
// Uses: record, numbers, bits.  Source: [01 The journal].
#![tactic(auto)]

ghost use Rattle.std.specs.Prelude.{◌≡◌, ℕ, ◌%◌, ◌^◌, ◌≤◌, ◌<◌, map, length, slice_index};
ghost use Rattle.numbers.specs.Number.{back};
ghost use Rattle.record.specs.Limits.{slot_limit, byte_limit};
ghost use Rattle.record.specs.Change.{Ascending, ByteOlds, changes, restore};
ghost use Rattle.undo.specs.Undo.{RunIs, RecordIs, read_record, shaped_record, all_valid, valid_for, differs, undo_of};

use numbers::read_number;
use record::limits::{BYTE_LIMIT, SLOT_LIMIT, valid_value};

// The counts of slots and bytes of a record, and where it starts.
#[derive(Clone, Copy)]
pub struct Last {
    pub slots: usize,
    pub bytes: usize,
    pub start: usize,
}

// Reads n changes back from place end into the first n entries of out, each place below the one after it and the last below limit: where
// they start, if there are such.
pub fn read_changes(
    journal: &[u8],
    end: usize,
    n: usize,
    limit: usize,
    out: &mut [u64],
) -> Option<usize>
    requires { (end ≤ length journal.now) × (n ≤ length out.old) }
    ensures { RunIs journal.now end n limit out.new result }
{
    let mut e = end;
    let mut lim = limit;
    for k in (0..n).rev() {
        let (old, e1) = read_number(journal, e)?;
        let (place, e2) = read_number(journal, e1)?;
        if lim <= (place as usize) {
            return None;
        }
        out[k] = (place as u64) * 4294967296 + (old as u64);
        lim = place as usize;
        e = e2;
    }
    Some(e)
}

// Reads the record that ends at the mark, if there is one: its slots' changes into slots, its bytes' into bytes.
fn read_record(
    journal: &[u8],
    mark: usize,
    len: usize,
    slots: &mut [u64],
    bytes: &mut [u64],
) -> Option<Last>
    requires { (mark ≤ length journal.now) × (slot_limit ≤ length slots.old) × (byte_limit ≤ length bytes.old) }
    ensures { RecordIs (read_record len (back journal.now mark)) len journal.now mark slots.new bytes.new result }
{
    let (nb, e1) = read_number(journal, mark)?;
    if BYTE_LIMIT < (nb as usize) {
        return None;
    }
    let (ns, e2) = read_number(journal, e1)?;
    if SLOT_LIMIT < (ns as usize) {
        return None;
    }
    let e3 = read_changes(journal, e2, nb as usize, len, bytes)?;
    let start = read_changes(journal, e3, ns as usize, SLOT_LIMIT, slots)?;
    Some(Last {
        slots: ns as usize,
        bytes: nb as usize,
        start,
    })
}

// Whether a place of memory, or else a slot, can hold v.
fn valid_for(bytes: bool, place: u32, v: u32) -> bool
    ensures { result ≡ valid_for bytes place v }
{
    if bytes {
        return v < 256;
    }
    valid_value(place, v)
}

// Whether each old value of a log is one that its place can hold.
pub fn all_valid(bytes: bool, log: &[u64], n: usize) -> bool
    requires { n ≤ length log.now }
    ensures { result ≡ all_valid (valid_for bytes) (changes log.now n) }
{
    for &e in &log[..n] {
        if !valid_for(bytes, (e / 4294967296) as u32, (e % 4294967296) as u32) {
            return false;
        }
    }
    true
}

// Reads the record that ends at the mark, if it is well formed but for what is now held.
pub fn shaped_record(
    journal: &[u8],
    mark: usize,
    len: usize,
    slots: &mut [u64],
    bytes: &mut [u64],
) -> Option<Last>
    requires { (mark ≤ length journal.now) × (slot_limit ≤ length slots.old) × (byte_limit ≤ length bytes.old) }
    ensures { RecordIs (shaped_record len (back journal.now mark)) len journal.now mark slots.new bytes.new result }
{
    let last = read_record(journal, mark, len, slots, bytes)?;
    if !all_valid(false, slots, last.slots) || !all_valid(true, bytes, last.bytes) {
        return None;
    }
    Some(last)
}

// Whether no old value of a log is the one that its place, a slot or a byte of memory, holds.
fn differ<T: Copy + Into<u64>>(held: &[T], log: &[u64], n: usize) -> bool
    requires { (n ≤ length log.now) × Ascending 0 (length held.now) (changes log.now n) }
    ensures { (value : T → ℕ) → ((x : T) (y : ℕ) → T.converts x y → y ≡ value x) → result ≡ differs (map value held.now) (changes log.now n) }
{
    for &e in &log[..n] {
        if e % 4294967296 == held[(e / 4294967296) as usize].into() {
            return false;
        }
    }
    true
}

// Puts a log's old values back, each as of makes it of an entry.
fn restore<T: Copy, F: Fn(u64) -> T>(held: &mut [T], log: &[u64], n: usize, of: F)
    requires callable { F.IsAlwaysCallable of }
    requires places { (n ≤ length log.now) × Ascending 0 (length held.old) (changes log.now n) }
    ensures { (value : T → ℕ) → ((i : ℕ) (x : T) → i < n → F.post of (slice_index log.now i) x → value x ≡ slice_index log.now i % 2 ^ 32) → map value held.new ≡ restore (changes log.now n) (map value held.old) }
{
    for &e in &log[..n] {
        held[(e / 4294967296) as usize] = of(e);
    }
}

// Puts a log's old bytes back into memory.
pub fn restore_bytes(memory: &mut [u8], log: &[u64], n: usize)
    requires { (n ≤ length log.now) × Ascending 0 (length memory.old) (changes log.now n) × ByteOlds (changes log.now n) }
    ensures { memory.new ≡ restore (changes log.now n) memory.old }
{
    restore(memory, log, n, |e| (e % 256) as u8);
}

// Puts back what the last record says, where it is well formed: the new mark, or none where it is refused.
pub fn undo(
    slots: &mut [u32; SLOT_LIMIT],
    memory: &mut [u8],
    journal: &[u8],
    mark: usize,
) -> Option<usize>
    ensures { undo_of slots.old memory.old journal.now mark ≡ record { slots = slots.new; memory = memory.new; answer = result } }
{
    if journal.len() < mark {
        return None;
    }
    let mut s = [0u64; SLOT_LIMIT];
    let mut b = [0u64; BYTE_LIMIT];
    let last = shaped_record(journal, mark, memory.len(), &mut s, &mut b)?;
    if !differ(slots, &s, last.slots) || !differ(memory, &b, last.bytes) {
        return None;
    }
    restore(slots, &s, last.slots, |e| (e % 4294967296) as u32);
    restore_bytes(memory, &b, last.bytes);
    Some(last.start)
}
