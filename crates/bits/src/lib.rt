// lib.rt - numbers of 8, 16 and 32 bits: cut to a size, sign, differences, parts replaced, ones counted. Knows no 68000.
// Means: specs/Bits.antt.  Laws: proofs/BitsLaws.antt, proofs/OnesLaws.antt.
// Uses: nothing.  Source: [003 2.2], [003 B.4], [ours].
#![tactic(auto)]

ghost use Rattle.std.specs.Prelude.{◌≡◌, ◌+◌, ◌*◌, ◌%◌, ◌<◌, ◌≤◌};
ghost use Rattle.std.specs.Int.Count.{ones_in};
ghost use Rattle.bits.specs.Bits.{bit, modulus, half, low, minus, joined, sign_byte, sign_word, sign_extended};

// A byte as a wider number.
pub fn wide(x: u8) -> u32
    ensures { (result ≡ x) × (result < 256) }
{
    x as u32
}

pub fn bit(b: bool) -> u32
    ensures { (result ≡ bit b) × (result ≤ 1) }
{
    b as u32
}

// How many values a size has: z is 0 for a byte, 1 for a word, else a long.
pub fn modulus_of(z: u32) -> u64
    ensures { (result ≡ modulus z) × (0 < modulus z) × (modulus z ≤ 4294967296) }
{
    let byte = z == 0;
    let word = z == 1;
    if byte {
        return 0x100;
    }
    if word {
        return 0x1_0000;
    }
    0x1_0000_0000
}

pub fn half_of(z: u32) -> u32
    ensures { result ≡ half z }
{
    let byte = z == 0;
    let word = z == 1;
    if byte {
        return 0x80;
    }
    if word {
        return 0x8000;
    }
    0x8000_0000
}

// The low byte, word or long.
pub fn cut(x: u64, z: u32) -> u32
    ensures { (result ≡ low x z) × (result < modulus z) }
{
    let byte = z == 0;
    let word = z == 1;
    if byte {
        return (x % 0x100) as u32;
    }
    if word {
        return (x % 0x1_0000) as u32;
    }
    (x % 0x1_0000_0000) as u32
}

// A difference of 32 bits.
pub fn minus(a: u32, b: u32) -> u32
    ensures { result ≡ minus a b }
{
    ((a as u64 + 0x1_0000_0000 - b as u64) % 0x1_0000_0000) as u32
}

// The low part a of a number x replaced by b.
pub fn joined(x: u32, a: u32, b: u32) -> u32
    ensures { result ≡ joined x a b }
{
    ((x as u64 + 0x1_0000_0000 - a as u64 + b as u64) % 0x1_0000_0000) as u32
}

// The low byte, its sign carried on to 32 bits.
pub fn sign_byte(x: u32) -> u32
    ensures { result ≡ sign_byte x }
{
    let b = x % 0x100;
    let neg = 0x80 <= b;
    b + bit(neg) * 0xFFFF_FF00
}

// The low word, its sign carried on to 32 bits.
pub fn sign_word(x: u32) -> u32
    ensures { result ≡ sign_word x }
{
    let w = x % 0x1_0000;
    let neg = 0x8000 <= w;
    w + bit(neg) * 0xFFFF_0000
}

// A byte or word carried on to 32 bits; a long as it is.
pub fn sign_extended(x: u32, z: u32) -> u32
    ensures { result ≡ sign_extended x z }
{
    let byte = z == 0;
    let word = z == 1;
    if byte {
        return sign_byte(x);
    }
    if word {
        return sign_word(x);
    }
    x
}

// How many of the low sixteen bits are ones.
pub fn ones_of(x: u32) -> u32
    ensures { (result ≡ ones_in 16 x) × (result ≤ 16) }
{
    u32::count_ones(x % 65536)
}
