// setting.rt - puts what a line lists into slots and bytes: None where it lists what is none, or what has no room.
// Means: nothing; proved safe.
// Uses: codes, text.  Source: [ours], crates/vectors/README.md.
use crate::text::{byte_of, halves, marks, number, slot_number};
use codes::SLOTS;

// Puts the bytes that text spells, one or more, at place `at`.
pub fn put_bytes(text: &[u8], to: &mut [u8], at: usize) -> Option<()> {
    let (spelled, odd) = text.as_chunks::<2>();
    if spelled.is_empty() || !odd.is_empty() {
        return None;
    }
    let end = at.checked_add(spelled.len())?;
    let room = to.get_mut(at..end)?;
    for (byte, digits) in room.iter_mut().zip(spelled) {
        *byte = byte_of(digits)?;
    }
    Some(())
}

// A run is a place, a colon and bytes; places are counted from that of the first byte.
fn put_run(run: &[u8], to: &mut [u8], first: u32) -> Option<()> {
    let (place, bytes) = halves(run, b':')?;
    let at = number(place)?.checked_sub(first)?;
    put_bytes(bytes, to, at as usize)
}

// A hyphen lists nothing.
fn is_hyphen(list: &[u8]) -> bool {
    matches!(list, b"-")
}

// Puts the bytes that a field spells at the start of a buffer, and answers that part; a hyphen is none.
pub fn put_all<'a>(spelled: &[u8], buffer: &'a mut [u8]) -> Option<&'a mut [u8]> {
    let part = buffer.get_mut(..spelled.len() / 2)?;
    if !is_hyphen(spelled) {
        put_bytes(spelled, part, 0)?;
    }
    Some(part)
}

// Puts every run of a list that has one or more.
pub(crate) fn put_each(runs: &[u8], to: &mut [u8], first: u32) -> Option<()> {
    for run in runs.split(|b| *b == b',') {
        put_run(run, to, first)?;
    }
    Some(())
}

// Puts every run of a list; a hyphen is none.
pub fn put_runs(runs: &[u8], to: &mut [u8]) -> Option<()> {
    if is_hyphen(runs) {
        return Some(());
    }
    put_each(runs, to, 0)
}

// Clears the bytes that each run of a list names; a hyphen is none.
pub(crate) fn clear_runs(runs: &[u8], to: &mut [u8]) -> Option<()> {
    if is_hyphen(runs) {
        return Some(());
    }
    for run in runs.split(|b| *b == b',') {
        let (place, bytes) = halves(run, b':')?;
        let at = number(place)? as usize;
        to.get_mut(at..at.checked_add(bytes.len() / 2)?)?.fill(0);
    }
    Some(())
}

// Puts the values of a list of all slots.
pub fn put_slots(list: &[u8], slots: &mut [u32; SLOTS]) -> Option<()> {
    if marks(list, b',') != SLOTS - 1 {
        return None;
    }
    for (slot, value) in slots.iter_mut().zip(list.split(|b| *b == b',')) {
        *slot = number(value)?;
    }
    Some(())
}

// A change is a slot's number in base 10, an equals sign and a value.
fn change_slot(change: &[u8], slots: &mut [u32; SLOTS]) -> Option<()> {
    let (slot, value) = halves(change, b'=')?;
    let slot = slots.get_mut(slot_number(slot)?)?;
    *slot = number(value)?;
    Some(())
}

// Puts the values of a list of changes; a hyphen is none.
pub fn change_slots(changes: &[u8], slots: &mut [u32; SLOTS]) -> Option<()> {
    if is_hyphen(changes) {
        return Some(());
    }
    for change in changes.split(|b| *b == b',') {
        change_slot(change, slots)?;
    }
    Some(())
}

// Bytes that tell places apart.
pub fn fill(to: &mut [u8]) {
    for (i, byte) in to.iter_mut().enumerate() {
        *byte = (i % 251) as u8;
    }
}
