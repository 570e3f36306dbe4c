// lib.rt - sums, differences, logic, single bits, TAS and CHK at a size z: value and flags. No registers, no memory.
// Means: specs/Alu.antt.  Laws: proofs/AluLaws.antt.
// Uses: bits, flags.  Source: [003 A-1], [003 B], [01 Arithmetic].
#![tactic(auto)]

ghost use Rattle.std.specs.Prelude.{◌≡◌, ◌^◌, ◌<◌, ◌≤◌};
ghost use Rattle.bits.specs.Bits.{modulus};
ghost use Rattle.alu.specs.Alu.{OfSize, sum, difference, concluded, continued, add, add_extended, subtract, subtract_extended, negate};
ghost use Rattle.alu.specs.Alu.{negate_extended, compare};
ghost use Rattle.alu.specs.Alu.{moved, and, or, exclusive_or, complement, extended, swapped, bit_number, bit_changed, bit_operation, tas};
ghost use Rattle.alu.specs.Alu.{check};

// A sum or difference: its value, whether that is negative, overflow, carry or borrow.
#[derive(Clone, Copy)]
pub struct Outcome {
    pub r: u32,
    pub n: bool,
    pub v: bool,
    pub c: bool,
}

fn sum(a: u32, b: u32, x: bool, z: u32) -> Outcome
    ensures { (result ≡ sum a b x z) × (result.r < modulus z) }
{
    let d = bits::cut(a as u64, z);
    let s = bits::cut(b as u64, z);
    let t = d as u64 + s as u64 + bits::bit(x) as u64;
    let r = bits::cut(t, z);
    let m = bits::modulus_of(z);
    let h = bits::half_of(z);
    let nd = h <= d;
    let ns = h <= s;
    let nr = h <= r;
    Outcome {
        r: r,
        n: nr,
        v: (ns & nd & !nr) | (!ns & !nd & nr),
        c: m <= t,
    }
}

fn difference(a: u32, b: u32, x: bool, z: u32) -> Outcome
    ensures { (result ≡ difference a b x z) × (result.r < modulus z) }
{
    let d = bits::cut(a as u64, z);
    let s = bits::cut(b as u64, z);
    let m = bits::modulus_of(z);
    let h = bits::half_of(z);
    let t = s as u64 + bits::bit(x) as u64;
    let r = bits::cut(d as u64 + m - t, z);
    let nd = h <= d;
    let ns = h <= s;
    let nr = h <= r;
    Outcome {
        r: r,
        n: nr,
        v: (!ns & nd & !nr) | (ns & !nd & nr),
        c: (d as u64) < t,
    }
}

fn concluded(o: Outcome) -> flags::Flagged
    ensures { (result ≡ concluded o) × (result.value ≡ o.r) × (result.ccr < 32) }
{
    flags::Flagged {
        value: o.r,
        ccr: flags::flags(o.c, o.n, o.r == 0, o.v, o.c),
    }
}

fn continued(o: Outcome, old: u32) -> flags::Flagged
    ensures { (result ≡ continued o old) × (result.value ≡ o.r) × (result.ccr < 32) }
{
    flags::Flagged {
        value: o.r,
        ccr: flags::flags(o.c, o.n, flags::z_of(old) & (o.r == 0), o.v, o.c),
    }
}

pub fn add(a: u32, b: u32, z: u32) -> flags::Flagged
    ensures { (result ≡ add a b z) × OfSize z result }
{
    concluded(sum(a, b, false, z))
}

pub fn add_extended(a: u32, b: u32, old: u32, z: u32) -> flags::Flagged
    ensures { (result ≡ add_extended a b old z) × OfSize z result }
{
    continued(sum(a, b, flags::x_of(old), z), old)
}

pub fn subtract(a: u32, b: u32, z: u32) -> flags::Flagged
    ensures { (result ≡ subtract a b z) × OfSize z result }
{
    concluded(difference(a, b, false, z))
}

pub fn subtract_extended(a: u32, b: u32, old: u32, z: u32) -> flags::Flagged
    ensures { (result ≡ subtract_extended a b old z) × OfSize z result }
{
    continued(difference(a, b, flags::x_of(old), z), old)
}

pub fn negate(a: u32, z: u32) -> flags::Flagged
    ensures { (result ≡ negate a z) × OfSize z result }
{
    subtract(0, a, z)
}

pub fn negate_extended(a: u32, old: u32, z: u32) -> flags::Flagged
    ensures { (result ≡ negate_extended a old z) × OfSize z result }
{
    subtract_extended(0, a, old, z)
}

// The flags of a - b with X kept; the value is the destination's.
pub fn compare(a: u32, b: u32, old: u32, z: u32) -> flags::Flagged
    ensures { (result ≡ compare a b old z) × OfSize z result }
{
    let o = difference(a, b, false, z);
    flags::Flagged {
        value: bits::cut(a as u64, z),
        ccr: flags::flags(flags::x_of(old), o.n, o.r == 0, o.v, o.c),
    }
}

// A value with the flags of MOVE, TST, CLR and of logical results.
pub fn moved(v: u32, old: u32, z: u32) -> flags::Flagged
    ensures { (result ≡ moved v old z) × OfSize z result }
{
    let r = bits::cut(v as u64, z);
    let n = bits::half_of(z) <= r;
    flags::Flagged {
        value: r,
        ccr: flags::flags(flags::x_of(old), n, r == 0, false, false),
    }
}

pub fn and(a: u32, b: u32, old: u32, z: u32) -> flags::Flagged
    ensures { (result ≡ and a b old z) × OfSize z result }
{
    moved(a & b, old, z)
}

pub fn or(a: u32, b: u32, old: u32, z: u32) -> flags::Flagged
    ensures { (result ≡ or a b old z) × OfSize z result }
{
    moved(a | b, old, z)
}

pub fn exclusive_or(a: u32, b: u32, old: u32, z: u32) -> flags::Flagged
    ensures { (result ≡ exclusive_or a b old z) × OfSize z result }
{
    moved(a ^ b, old, z)
}

pub fn complement(a: u32, old: u32, z: u32) -> flags::Flagged
    ensures { (result ≡ complement a old z) × OfSize z result }
{
    let d = bits::cut(a as u64, z);
    let m = bits::modulus_of(z);
    moved((m - 1 - d as u64) as u32, old, z)
}

// EXT to size z.
pub fn extended(v: u32, old: u32, z: u32) -> flags::Flagged
    ensures { (result ≡ extended v old z) × OfSize z result }
{
    moved(bits::sign_extended(v, z / 2), old, z)
}

pub fn swapped(v: u32, old: u32) -> flags::Flagged
    ensures { (result ≡ swapped v old) × OfSize 2 result }
{
    moved(v % 65536 * 65536 + v / 65536, old, 2)
}

fn bit_number(n: u32, z: u32) -> u32
    ensures { (result ≡ bit_number n z) × (result < 32) }
{
    let byte = z == 0;
    if byte {
        return n % 8;
    }
    n % 32
}

fn bit_weight(n: u32, z: u32) -> u32
    ensures { result ≡ 2 ^ bit_number n z }
{
    let i = bit_number(n, z);
    1u32 << i
}

fn bit_changed(v: u32, w: u32, k: u32) -> u32
    ensures { result ≡ bit_changed v w k }
{
    match k {
        0 => v,
        1 => v ^ w,
        2 => v & !w,
        _ => v | w,
    }
}

// BTST, BCHG, BCLR, BSET for k from 0 to 3: the value after, and the flags.
pub fn bit_operation(v: u32, n: u32, k: u32, old: u32, z: u32) -> flags::Flagged
    ensures { (result ≡ bit_operation v n k old z) × OfSize z result }
{
    let w = bit_weight(n, z);
    let clear = v & w == 0;
    flags::Flagged {
        value: bits::cut(bit_changed(v, w, k) as u64, z),
        ccr: flags::flags(
            flags::x_of(old),
            flags::n_of(old),
            clear,
            flags::v_of(old),
            flags::c_of(old),
        ),
    }
}

pub fn tas(v: u32, old: u32) -> flags::Flagged
    ensures { (result ≡ tas v old) × OfSize 0 result }
{
    let before = moved(v, old, 0);
    let set = bit_operation(v, 7, 3, old, 0);
    flags::Flagged {
        value: set.value,
        ccr: before.ccr,
    }
}

// CHK of the low words: the value is 1 where it traps, else 0.
pub fn check(d: u32, bound: u32, old: u32) -> flags::Flagged
    ensures { (result ≡ check d bound old) × (result.value ≤ 1) × (result.ccr < 32) }
{
    let below = 32768 <= d % 65536;
    let above = (bound % 65536 + 32768) % 65536 < (d % 65536 + 32768) % 65536;
    let n = below | (!above & flags::n_of(old));
    flags::Flagged {
        value: bits::bit(below | above),
        ccr: flags::flags(
            flags::x_of(old),
            n,
            flags::z_of(old),
            flags::v_of(old),
            flags::c_of(old),
        ),
    }
}
