// lib.rt - the frames of 6 and 14 bytes, as they are written, and a byte of memory that one is put over.
// Means: specs/Frames.antt, specs/Under.antt.  Laws: proofs/FrameLaws.antt.
// Uses: codes, bits, bus, touch, store.  Source: [003 4.3.4], [003 4.4.9.1], [01 step 1], [01 step 7], [01 step 8], [K3].
#![tactic(auto)]

ghost use Rattle.std.specs.Prelude.{◌≡◌, ◌+◌, ◌≤◌, length};
ghost use Rattle.touch.specs.Touch.{LogOk, Noted};
ghost use Rattle.frames.specs.Frames.{small_frame, fault_access, fault_rest, big_frame};
ghost use Rattle.frames.specs.Under.{under_byte, under_word, under_long, under_small, under_access, under_rest, under_big};

// From the lowest address: SR, PC.
#[tactic(auto, unfolding(crate::specs::Frames::small_frame))]
pub fn small_frame(mem: &mut [u8], log: &mut [u64], n: usize, a: u32, sr: u32, pc: u32) -> usize
    requires { LogOk mem.old log.old n × (n + 6 ≤ length log.old) }
    ensures mem_after { mem.new ≡ small_frame mem.old a sr pc }
    ensures noted { Noted mem.old log.old n 6 mem.new log.new result }
{
    let k = store::store_word(mem, log, n, a, sr);
    store::store_long(mem, log, k, std::num::wrapping_add_u32(a, 2), pc)
}

// The information word and the access address of a fault.
#[tactic(auto, unfolding(crate::specs::Frames::fault_access))]
fn fault_access(mem: &mut [u8], log: &mut [u64], n: usize, a: u32, bad: u32) -> usize
    requires { LogOk mem.old log.old n × (n + 6 ≤ length log.old) }
    ensures mem_after { mem.new ≡ fault_access mem.old a bad }
    ensures noted { Noted mem.old log.old n 6 mem.new log.new result }
{
    let k = store::store_word(mem, log, n, a, bad / 4 % 64);
    store::store_long(mem, log, k, std::num::wrapping_add_u32(a, 2), bad / 256)
}

// The operation word of a fault, SR and PC.
#[tactic(auto, unfolding(crate::specs::Frames::fault_rest))]
fn fault_rest(mem: &mut [u8], log: &mut [u64], n: usize, a: u32, op: u32, sr: u32, pc: u32) -> usize
    requires { LogOk mem.old log.old n × (n + 8 ≤ length log.old) }
    ensures mem_after { mem.new ≡ fault_rest mem.old a op sr pc }
    ensures noted { Noted mem.old log.old n 8 mem.new log.new result }
{
    let k = store::store_word(mem, log, n, a, op);
    small_frame(mem, log, k, std::num::wrapping_add_u32(a, 2), sr, pc)
}

// From the lowest address: information word, access address, operation word, SR, PC.
#[tactic(auto, unfolding(crate::specs::Frames::big_frame))]
pub fn big_frame(
    mem: &mut [u8],
    log: &mut [u64],
    n: usize,
    a: u32,
    bad: u32,
    op: u32,
    sr: u32,
    pc: u32,
) -> usize
    requires { LogOk mem.old log.old n × (n + 14 ≤ length log.old) }
    ensures mem_after { mem.new ≡ big_frame mem.old a bad op sr pc }
    ensures noted { Noted mem.old log.old n 14 mem.new log.new result }
{
    let k = fault_access(mem, log, n, a, bad);
    fault_rest(mem, log, k, std::num::wrapping_add_u32(a, 6), op, sr, pc)
}

// What the byte b at place i of memory is, once a byte is put at a.
#[tactic(auto, unfolding(crate::specs::Under::under_byte))]
fn under_byte(i: u32, b: u32, a: u32, v: u32) -> u32
    ensures { result ≡ under_byte i b a v }
{
    let here = a % codes::ADDRESSES == i;
    if here {
        return v % 256;
    }
    b
}

#[tactic(auto, unfolding(crate::specs::Under::under_word))]
fn under_word(i: u32, b: u32, a: u32, v: u32) -> u32
    ensures { result ≡ under_word i b a v }
{
    let c = under_byte(i, b, a, v / 256);
    under_byte(i, c, std::num::wrapping_add_u32(a, 1), v)
}

#[tactic(auto, unfolding(crate::specs::Under::under_long))]
fn under_long(i: u32, b: u32, a: u32, v: u32) -> u32
    ensures { result ≡ under_long i b a v }
{
    let c = under_word(i, b, a, v / 65536);
    under_word(i, c, std::num::wrapping_add_u32(a, 2), v)
}

// The same byte once the frame of six bytes is put.
#[tactic(auto, unfolding(crate::specs::Under::under_small))]
pub fn under_small(i: u32, b: u32, a: u32, sr: u32, pc: u32) -> u32
    ensures { result ≡ under_small i b a sr pc }
{
    let c = under_word(i, b, a, sr);
    under_long(i, c, std::num::wrapping_add_u32(a, 2), pc)
}

// A byte of memory once the frame of a fault is put: its first six bytes, the eight above them, all.
#[tactic(auto, unfolding(crate::specs::Under::under_access))]
fn under_access(i: u32, b: u32, a: u32, bad: u32) -> u32
    ensures { result ≡ under_access i b a bad }
{
    let c = under_word(i, b, a, bad / 4 % 64);
    under_long(i, c, std::num::wrapping_add_u32(a, 2), bad / 256)
}

#[tactic(auto, unfolding(crate::specs::Under::under_rest))]
fn under_rest(i: u32, b: u32, a: u32, op: u32, sr: u32, pc: u32) -> u32
    ensures { result ≡ under_rest i b a op sr pc }
{
    let c = under_word(i, b, a, op);
    under_small(i, c, std::num::wrapping_add_u32(a, 2), sr, pc)
}

#[tactic(auto, unfolding(crate::specs::Under::under_big))]
pub fn under_big(i: u32, b: u32, a: u32, bad: u32, op: u32, sr: u32, pc: u32) -> u32
    ensures { result ≡ under_big i b a bad op sr pc }
{
    let c = under_access(i, b, a, bad);
    under_rest(i, c, std::num::wrapping_add_u32(a, 6), op, sr, pc)
}
