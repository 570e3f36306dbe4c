// lib.rt - the puts of a step: what stood at each place is noted in the touch log, then the new bytes are put.
// Means: put_byte, put_word, put_long, put_sized of bus; Noted of touch.  Laws: proofs/StoreLaws.antt.
// Uses: codes, touch, bus, bits.  Source: [01 The journal], [01 step 6].
#![tactic(auto)]

ghost use Rattle.std.specs.Prelude.{◌≡◌, ◌+◌, ◌*◌, ◌<◌, ◌≤◌, length};
ghost use Rattle.bits.specs.Bits.{by_size};
ghost use Rattle.bus.specs.Bus.{pins, put_byte, put_word, put_long, put_sized};
ghost use Rattle.touch.specs.Touch.{AllBelow, LogOk, Noted};

use touch::{above, write_above, write_byte};

// Each returns how many entries the log has then. Outside memory nothing is noted and nothing put.
pub fn store_byte(memory: &mut [u8], log: &mut [u64], n: usize, a: u32, v: u32) -> usize
    requires { LogOk memory.old log.old n × (n + 1 ≤ length log.old) }
    ensures memory { memory.new ≡ put_byte memory.old a v }
    ensures noted { Noted memory.old log.old n 1 memory.new log.new result }
{
    let p = a % codes::ADDRESSES;
    if (p as usize) < memory.len() {
        return write_byte(memory, log, n, p, (v % 256) as u8);
    }
    n
}

pub fn store_word(memory: &mut [u8], log: &mut [u64], n: usize, a: u32, v: u32) -> usize
    requires { LogOk memory.old log.old n × (n + 2 ≤ length log.old) }
    ensures memory { memory.new ≡ put_word memory.old a v }
    ensures noted { Noted memory.old log.old n 2 memory.new log.new result }
{
    let m = store_byte(memory, log, n, a, v / 256);
    store_byte(memory, log, m, std::num::wrapping_add_u32(a, 1), v)
}

// A word at place p, which is inside memory and above all that are noted.
fn word_above(memory: &mut [u8], log: &mut [u64], n: usize, p: u32, v: u32)
    requires { (p + 1 < length memory.old) × (n + 2 ≤ length log.old) × LogOk memory.old log.old n × AllBelow log.old n p }
    ensures memory { memory.new ≡ put_word memory.old p v }
    ensures noted { Noted memory.old log.old n 2 memory.new log.new (n + 2) }
    ensures below { AllBelow log.new (n + 2) (p + 2) }
{
    write_above(memory, log, n, p, (v / 256 % 256) as u8);
    write_above(memory, log, n + 1, p + 1, (v % 256) as u8);
}

// A long likewise.
fn long_above(memory: &mut [u8], log: &mut [u64], n: usize, p: u32, v: u32)
    requires { (p + 3 < length memory.old) × (n + 4 ≤ length log.old) × LogOk memory.old log.old n × AllBelow log.old n p }
    ensures memory { memory.new ≡ put_long memory.old p v }
    ensures noted { Noted memory.old log.old n 4 memory.new log.new (n + 4) }
    ensures below { AllBelow log.new (n + 4) (p + 4) }
{
    word_above(memory, log, n, p, v / 65536);
    word_above(memory, log, n + 2, p + 2, v);
}

// A word or a long, by the size z, at an address whose place is inside memory and above all that are noted; the entries that the log then has.
pub fn sized_above(memory: &mut [u8], log: &mut [u64], n: usize, a: u32, z: u32, v: u32) -> usize
    requires le_z { (1 ≤ z) × (z ≤ 2) × (pins a + 2 * z ≤ length memory.old) × (n + 2 * z ≤ length log.old) }
    requires log_ok { LogOk memory.old log.old n × AllBelow log.old n (pins a) }
    ensures memory { memory.new ≡ put_sized memory.old a z v }
    ensures count { result ≡ n + 2 * z }
    ensures noted { Noted memory.old log.old n (2 * z) memory.new log.new result }
    ensures below { AllBelow log.new result (pins a + 2 * z) }
{
    let p = a % codes::ADDRESSES;
    if z == 1 {
        word_above(memory, log, n, p, v);
        return n + 2;
    }
    long_above(memory, log, n, p, v);
    n + 4
}

// A long inside memory and above all that are noted needs no look at the log for each byte.
pub fn store_long(memory: &mut [u8], log: &mut [u64], n: usize, a: u32, v: u32) -> usize
    requires { LogOk memory.old log.old n × (n + 4 ≤ length log.old) }
    ensures memory { memory.new ≡ put_long memory.old a v }
    ensures noted { Noted memory.old log.old n 4 memory.new log.new result }
{
    let p = a % codes::ADDRESSES;
    if ((p as usize) + 3 < memory.len()) & above(log, n, p) {
        long_above(memory, log, n, p, v);
        return n + 4;
    }
    let m = store_word(memory, log, n, a, v / 65536);
    store_word(memory, log, m, std::num::wrapping_add_u32(a, 2), v)
}

// A byte, a word or a long by the size z.
pub fn store_sized(memory: &mut [u8], log: &mut [u64], n: usize, a: u32, z: u32, v: u32) -> usize
    requires { LogOk memory.old log.old n × (n + by_size z 1 2 4 ≤ length log.old) }
    ensures memory { memory.new ≡ put_sized memory.old a z v }
    ensures noted { Noted memory.old log.old n (by_size z 1 2 4) memory.new log.new result }
{
    if z == 0 {
        return store_byte(memory, log, n, a, v);
    }
    if z == 1 {
        return store_word(memory, log, n, a, v);
    }
    store_long(memory, log, n, a, v)
}
