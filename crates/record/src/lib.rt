// lib.rt - the record of a step: what differs, with its old values, written at the mark.
// Means: specs/Change.antt, specs/Mask.antt.  Laws: proofs/ChangeLaws.antt, proofs/DiffLaws.antt, proofs/KeptLaws.antt, proofs/MaskLaws.antt, proofs/SizeLaws.antt.
// Uses: numbers, bits.  Source: [01 The journal].
#![tactic(auto)]

pub mod limits;

ghost use Rattle.std.specs.Prelude.{◌≡◌, ◌+◌, ◌*◌, ◌≤◌, ◌<◌, ◌^◌, length};
ghost use Rattle.numbers.specs.Number.{written};
ghost use Rattle.record.specs.Change.{AllPut, diffs, restore, kept, Ascending, ByteOlds, changes, change_bytes, changes_bytes, step_record};
ghost use Rattle.record.specs.Mask.{mask};
ghost use Rattle.record.specs.Limits.{slot_limit};

use limits::SLOT_LIMIT;
use numbers::{put_byte, put_number, put_place, put_small};

// The place after what was written, and how many changes that was.
#[derive(Clone, Copy)]
pub struct Put {
    pub at: usize,
    pub count: u32,
}

// Writes one change of a byte at place at.
fn put_change(journal: &mut [u8], at: usize, place: u32, old: u32) -> usize
    requires { (old < 256) × (at + length (change_bytes (record { place = place; old = old })) ≤ length journal.old) }
    ensures next { result ≡ at + length (change_bytes (record { place = place; old = old })) }
    ensures bytes { journal.new ≡ written journal.old at (change_bytes (record { place = place; old = old })) }
{
    let p = put_place(journal, at, place);
    put_byte(journal, p, old)
}

// The slots that differ, one bit each, slot 0 in bit 1. The weights begin at 2: then the compiler compares four slots at once.
// It takes slices, so that put_slots is told how many slots it lends; the compiled code is that for arrays.
fn differing(old: &[u32], new: &[u32]) -> u32
    requires { (length old.now ≡ slot_limit) × (length new.now ≡ slot_limit) }
    ensures { result ≡ 2 * mask old.now new.now }
{
    let mut m: u32 = 0;
    let mut w: u32 = 2;
    for (o, n) in old.iter().zip(new) {
        if *o != *n {
            m |= w;
        }
        w *= 2;
    }
    m
}

// Writes the changes between two sets of slots.
fn put_slots(journal: &mut [u8], at: usize, old: &[u32; SLOT_LIMIT], new: &[u32; SLOT_LIMIT]) -> Put
    requires { at + length (changes_bytes (diffs 0 old.now new.now)) ≤ length journal.old }
    ensures put { AllPut journal.old at (diffs 0 old.now new.now) journal.new result }
    ensures few { result.count ≤ slot_limit }
{
    let mut m = differing(old, new);
    let mut p = at;
    let mut n: u32 = 0;
    // The library has no way to go over the set bits of a number.
    while m != 0 {
        let z = u32::trailing_zeros(m);
        let k = z - 1;
        p = put_small(journal, p, k);
        p = put_number(journal, p, old[k as usize]);
        m &= m - 1;
        n += 1;
    }
    Put { at: p, count: n }
}

// Writes the changes of a log whose old value the memory does not hold any more.
// The place and the count are two locals, not a Put that is handed through: then the compiler keeps them in registers.
fn put_bytes(journal: &mut [u8], at: usize, memory: &[u8], log: &[u64], n: usize) -> Put
    requires n_in_bounds { (n ≤ length log.now) × (n < 2 ^ 32) × Ascending 0 (length memory.now) (changes log.now n) × ByteOlds (changes log.now n) }
    requires n_in_bounds_2 { at + length (changes_bytes (kept memory.now (changes log.now n))) ≤ length journal.old }
    ensures { AllPut journal.old at (kept memory.now (changes log.now n)) journal.new result }
{
    let mut next = at;
    let mut count: u32 = 0;
    for e in &log[..n] {
        let place = (*e / 4294967296) as u32;
        let old = (*e % 4294967296) as u32;
        if old != (memory[place as usize] as u32) {
            next = put_change(journal, next, place, old);
            count += 1;
        }
    }
    Put { at: next, count }
}

// Writes the record of a step at the mark, and returns the new mark. The log has each place that was written, with its value before the step.
// Most steps write no memory: they take the short way. And since put_slots stands at two places, the compiler keeps it apart: it is slower
// within a step's other code.
pub fn put_record(
    journal: &mut [u8],
    mark: usize,
    old: &[u32; SLOT_LIMIT],
    new: &[u32; SLOT_LIMIT],
    memory: &[u8],
    log: &[u64],
    n: usize,
) -> usize
    requires n_in_bounds { (n ≤ length log.now) × (n < 2 ^ 32) × Ascending 0 (length memory.now) (changes log.now n) × ByteOlds (changes log.now n) }
    requires memory_in_bounds { mark + length (step_record old.now new.now (restore (changes log.now n) memory.now) memory.now) ≤ length journal.old }
    ensures next { result ≡ mark + length (step_record old.now new.now (restore (changes log.now n) memory.now) memory.now) }
    ensures bytes { journal.new ≡ written journal.old mark (step_record old.now new.now (restore (changes log.now n) memory.now) memory.now) }
{
    if n == 0 {
        let s = put_slots(journal, mark, old, new);
        let c = put_small(journal, s.at, s.count);
        return put_small(journal, c, 0);
    }
    let s = put_slots(journal, mark, old, new);
    let b = put_bytes(journal, s.at, memory, log, n);
    let c = put_small(journal, b.at, s.count);
    put_number(journal, c, b.count)
}
