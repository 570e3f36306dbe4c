// lib.rt - the touch log of a step: each place that is written, ascending, with the value that it had as the step began.
// Means: specs/Touch.antt.  Laws: proofs/TouchLaws.antt, proofs/RoomLaws.antt.
// Uses: record, bits.  Source: [01 The journal].
#![tactic(auto)]

ghost use Rattle.std.specs.Prelude.{◌≡◌, true, ◌+◌, ◌≤◌, ◌<◌, ◌^◌, length, set};
ghost use Rattle.record.specs.Change.{Ascending, changes};
ghost use Rattle.touch.specs.Touch.{touch, AllBelow, FoundPlace, make_room, LogOk, Noted};

// Where a place belongs among the first n entries, looked for from the end.
fn find_place(log: &[u64], n: usize, a: u32) -> usize
    requires { (n ≤ length log.now) × Ascending 0 (2 ^ 32) (changes log.now n) }
    ensures { FoundPlace log.now n a result }
{
    for i in (0..n).rev() {
        if log[i] / 4294967296 < (a as u64) {
            return i + 1;
        }
    }
    0
}

// Moves the entries from i up to n one further on, and puts p at i.
fn make_room(log: &mut [u64], n: usize, i: usize, p: u64)
    requires { (i ≤ n) × (n < length log.old) }
    ensures { log.new ≡ make_room log.old n i p }
{
    log.copy_within(i..n, i + 1);
    log[i] = p;
}

// Notes that place a held old, unless it is noted already. Returns how many entries there are now.
pub fn touch(log: &mut [u64], n: usize, a: u32, old: u32) -> usize
    requires { (n < length log.old) × Ascending 0 (2 ^ 32) (changes log.old n) }
    ensures count { (n ≤ result) × (result ≤ n + 1) }
    ensures log { changes log.new result ≡ touch (changes log.old n) a old }
{
    let i = find_place(log, n, a);
    let p = (a as u64) * 4294967296 + (old as u64);
    if i == n {
        log[n] = p;
        return n + 1;
    }
    if log[i] / 4294967296 == (a as u64) {
        return n;
    }
    make_room(log, n, i, p);
    n + 1
}

// Whether place a lies above all that are noted.
pub fn above(log: &[u64], n: usize, a: u32) -> bool
    requires { (n ≤ length log.now) × Ascending 0 (2 ^ 32) (changes log.now n) }
    ensures { result ≡ true → AllBelow log.now n a }
{
    if n == 0 {
        return true;
    }
    log[n - 1] / 4294967296 < (a as u64)
}

// Writes v at place a of memory, which lies above all that are noted, and notes what stood there, as the last entry.
pub fn write_above(memory: &mut [u8], log: &mut [u64], n: usize, a: u32, v: u8)
    requires { (a < length memory.old) × (n < length log.old) × LogOk memory.old log.old n × AllBelow log.old n a }
    ensures memory { memory.new ≡ set memory.old a v }
    ensures noted { Noted memory.old log.old n 1 memory.new log.new (n + 1) }
    ensures below { AllBelow log.new (n + 1) (a + 1) }
{
    let i = a as usize;
    log[n] = (a as u64) * 4294967296 + (memory[i] as u64);
    memory[i] = v;
}

// Writes v at place a of memory, and notes what stood there. Returns how many entries there are now.
pub fn write_byte(memory: &mut [u8], log: &mut [u64], n: usize, a: u32, v: u8) -> usize
    requires { (a < length memory.old) × (n < length log.old) × LogOk memory.old log.old n }
    ensures memory { memory.new ≡ set memory.old a v }
    ensures noted { Noted memory.old log.old n 1 memory.new log.new result }
{
    if above(log, n, a) {
        write_above(memory, log, n, a, v);
        return n + 1;
    }
    let i = a as usize;
    let r = touch(log, n, a, memory[i] as u32);
    memory[i] = v;
    r
}
