// lib.rt - the journal's numbers: written at a place, and read back from the place where they end.
// Means: specs/Number.antt.  Laws: proofs/NumberLaws.antt, proofs/WrittenLaws.antt, proofs/PutLaws.antt, proofs/ExampleLaws.antt.
// Uses: bits.  Source: [01 The journal].
#![tactic(auto)]

ghost use Rattle.std.specs.Prelude.{◌≡◌, ◌+◌, ◌-◌, ◌*◌, ◌^◌, ◌≤◌, ◌<◌, length};
ghost use Rattle.numbers.specs.Number.{number_bytes, written, GroupsIs, NumberIs};

// Writes v, which fits in one byte, at place at; returns the place after it.
pub fn put_small(journal: &mut [u8], at: usize, v: u32) -> usize
    requires { (v < 128) × (at + length (number_bytes v) ≤ length journal.old) }
    ensures next { result ≡ at + length (number_bytes v) }
    ensures bytes { journal.new ≡ written journal.old at (number_bytes v) }
{
    journal[at] = v as u8;
    at + 1
}

// Writes v, a byte's value, at place at; returns the place after it.
pub fn put_byte(journal: &mut [u8], at: usize, v: u32) -> usize
    requires { (v < 256) × (at + length (number_bytes v) ≤ length journal.old) }
    ensures next { result ≡ at + length (number_bytes v) }
    ensures bytes { journal.new ≡ written journal.old at (number_bytes v) }
{
    if v < 128 {
        return put_small(journal, at, v);
    }
    journal[at] = 1;
    journal[at + 1] = v as u8;
    at + 2
}

// Writes v, which fits in three bytes and not in two, at place at; returns the place after it.
fn put_three(journal: &mut [u8], at: usize, v: u32) -> usize
    requires { (16384 ≤ v) × (v < 2097152) × (at + length (number_bytes v) ≤ length journal.old) }
    ensures next { result ≡ at + length (number_bytes v) }
    ensures bytes { journal.new ≡ written journal.old at (number_bytes v) }
{
    journal[at] = (v / 16384) as u8;
    journal[at + 1] = (v / 128 % 128 + 128) as u8;
    journal[at + 2] = (v % 128 + 128) as u8;
    at + 3
}

// Writes v at place at; returns the place after it.
pub fn put_number(journal: &mut [u8], at: usize, v: u32) -> usize
    requires { at + length (number_bytes v) ≤ length journal.old }
    ensures next { result ≡ at + length (number_bytes v) }
    ensures bytes { journal.new ≡ written journal.old at (number_bytes v) }
{
    if v < 128 {
        return put_small(journal, at, v);
    }
    if v < 16384 {
        journal[at] = (v / 128) as u8;
        journal[at + 1] = (v % 128 + 128) as u8;
        return at + 2;
    }
    if v < 2097152 {
        return put_three(journal, at, v);
    }
    if v < 268435456 {
        journal[at] = (v / 2097152) as u8;
        journal[at + 1] = (v / 16384 % 128 + 128) as u8;
        journal[at + 2] = (v / 128 % 128 + 128) as u8;
        journal[at + 3] = (v % 128 + 128) as u8;
        return at + 4;
    }
    journal[at] = (v / 268435456) as u8;
    journal[at + 1] = (v / 2097152 % 128 + 128) as u8;
    journal[at + 2] = (v / 16384 % 128 + 128) as u8;
    journal[at + 3] = (v / 128 % 128 + 128) as u8;
    journal[at + 4] = (v % 128 + 128) as u8;
    at + 5
}

// Writes v, a place in memory, at place at; returns the place after it. Most are of three bytes, and are told by two questions.
pub fn put_place(journal: &mut [u8], at: usize, v: u32) -> usize
    requires { at + length (number_bytes v) ≤ length journal.old }
    ensures next { result ≡ at + length (number_bytes v) }
    ensures bytes { journal.new ≡ written journal.old at (number_bytes v) }
{
    if v < 16384 {
        return put_number(journal, at, v);
    }
    if v < 2097152 {
        return put_three(journal, at, v);
    }
    put_number(journal, at, v)
}

// The last group, whose byte is b, after the groups before it.
fn join_group(hi: u32, b: u8) -> u32
    requires { (hi * 128 + (b - 128) < 2 ^ 32) × (128 ≤ b) }
    ensures { result ≡ hi * 128 + (b - 128) }
{
    hi * 128 + ((b - 128) as u32)
}

// The number, of at most k groups before its last, that ends at place end, and the place where it starts; or none.
fn read_groups(journal: &[u8], end: usize, k: u32) -> Option<(u32, usize)>
    requires { (end ≤ length journal.now) × (k ≤ 4) }
    ensures { GroupsIs k journal.now end result }
{
    if end == 0 {
        return None;
    }
    let e = end - 1;
    let b = journal[e];
    if b < 16 {
        return Some((b as u32, e));
    }
    if k == 0 {
        return None;
    }
    if b < 128 {
        return Some((b as u32, e));
    }
    let (hi, s) = read_groups(journal, e, k - 1)?;
    if hi == 0 {
        return None;
    }
    Some((join_group(hi, b), s))
}

// The number that ends at place end, and the place where it starts; or none. Most are of one or two bytes, and are read here; the longer
// ones group by group.
pub fn read_number(journal: &[u8], end: usize) -> Option<(u32, usize)>
    requires { end ≤ length journal.now }
    ensures { NumberIs journal.now end result }
{
    if end == 0 {
        return None;
    }
    let e = end - 1;
    let b = journal[e];
    if b < 128 {
        return Some((b as u32, e));
    }
    if e == 0 {
        return None;
    }
    let s = e - 1;
    let c = journal[s];
    if c == 0 {
        return None;
    }
    if c < 128 {
        return Some((join_group(c as u32, b), s));
    }
    read_groups(journal, end, 4)
}
