// lib.rt - the five flags X N Z V C as one number, a value with its flags, and the sixteen conditions.
// Means: specs/Flags.antt.  Laws: proofs/FlagsLaws.antt.
// Uses: codes, bits.  Source: [003 1.2], [003 A-2], [003 B DBcc], [003 B MOVE to CCR], [01 What the box emulates].
#![tactic(auto)]

ghost use Rattle.std.specs.Prelude.{◌≡◌, ◌+◌, ◌*◌, ◌%◌, ◌/◌, ◌<◌};
ghost use Rattle.flags.specs.Flags.{flags, x_of, n_of, z_of, v_of, c_of, with_ccr, sr_bits, condition, condition_by};

// A result and the five flags that go with it.
#[derive(Clone, Copy)]
pub struct Flagged {
    pub value: u32,
    pub ccr: u32,
}

// X N Z V C as 16 8 4 2 1.
pub fn flags(x: bool, n: bool, z: bool, v: bool, c: bool) -> u32
    ensures { (result ≡ flags x n z v c) × (result < 32) }
{
    bits::bit(x) * 16 + bits::bit(n) * 8 + bits::bit(z) * 4 + bits::bit(v) * 2 + bits::bit(c)
}

pub fn x_of(sr: u32) -> bool
    ensures { result ≡ x_of sr }
{
    sr / 16 % 2 == 1
}

pub fn n_of(sr: u32) -> bool
    ensures { result ≡ n_of sr }
{
    sr / 8 % 2 == 1
}

pub fn z_of(sr: u32) -> bool
    ensures { result ≡ z_of sr }
{
    sr / 4 % 2 == 1
}

pub fn v_of(sr: u32) -> bool
    ensures { result ≡ v_of sr }
{
    sr / 2 % 2 == 1
}

pub fn c_of(sr: u32) -> bool
    ensures { result ≡ c_of sr }
{
    sr % 2 == 1
}

// A status register with other flags.
pub fn with_ccr(sr: u32, c: u32) -> u32
    ensures { result ≡ with_ccr sr c }
{
    bits::joined(sr, sr % codes::FLAG_VALUES, c % codes::FLAG_VALUES)
}

// The bits that a status register has, $A71F; a write to it drops the others.
pub fn sr_bits(x: u32) -> u32
    ensures { result ≡ sr_bits x }
{
    x % codes::FLAG_VALUES
        + x / codes::MASK % 8 * codes::MASK
        + x / codes::SUPERVISOR % 2 * codes::SUPERVISOR
        + x / codes::TRACE % 2 * codes::TRACE
}

// Condition j, from 0 to 15, of four flags.
fn condition_by(n: bool, z: bool, v: bool, c: bool, j: u32) -> bool
    ensures { result ≡ condition_by n z v c j }
{
    match j {
        0 => true,
        1 => false,
        2 => !c & !z,
        3 => c | z,
        4 => !c,
        5 => c,
        6 => !z,
        7 => z,
        8 => !v,
        9 => v,
        10 => !n,
        11 => n,
        12 => !(n ^ v),
        13 => n ^ v,
        14 => !(n ^ v) & !z,
        _ => z | (n ^ v),
    }
}

// Whether condition k holds.
pub fn condition(sr: u32, k: u32) -> bool
    ensures { result ≡ condition sr k }
{
    condition_by(n_of(sr), z_of(sr), v_of(sr), c_of(sr), k % 16)
}
