// lib.rt - MULS, MULU, DIVS, DIVU: result and flags; the signed two on signed numbers. No registers, no memory, no trap.
// Means: specs/MultiplyDivide.antt.  Laws: proofs/SignedLaws.antt, proofs/ResultLaws.antt.
// Uses: flags, bits.  Source: [003 B MULS MULU DIVS DIVU], [01 Arithmetic], [01 step 5], [01 The shape of each place].
#![tactic(auto)]

ghost use Rattle.std.specs.Prelude.{◌≡◌, ◌<◌, pos, ◌*ℤ◌};
ghost use Rattle.std.specs.Int.Signed.{quot_z, rem_z, mag};
ghost use Rattle.multiply_divide.specs.MultiplyDivide.{signed_long, signed_word, low_long, outside_word, product_result, multiply_signed, multiply_unsigned};
ghost use Rattle.multiply_divide.specs.MultiplyDivide.{zero_divide, quotient_result, divide_signed, divide_unsigned};

// What a division leaves: the register, the five flags, and whether the divisor was 0.
#[derive(Clone, Copy)]
pub struct Divided {
    pub value: u32,
    pub ccr: u32,
    pub zero: bool,
}

// A quotient and its remainder.
#[derive(Clone, Copy)]
struct Parts {
    q: i64,
    r: i64,
}

// The signed number whose 32 bits are x.
fn signed_long(x: u32) -> i64
    ensures { (result ≡ signed_long x) × (mag result < 2147483648) }
{
    let small = x < 2147483648;
    if small {
        return x as i64;
    }
    x as i64 - 4294967296
}

// The signed number whose 16 bits are the low word of x.
fn signed_word(x: u32) -> i64
    ensures { (result ≡ signed_word x) × (mag result < 2147483648) }
{
    signed_long(bits::sign_word(x))
}

// The low 32 bits of a signed number.
fn low_long(z: i64) -> u32
    ensures { result ≡ low_long z }
{
    let neg = z < 0;
    if neg {
        let n = (-1 - z) as u64;
        return ((18446744073709551615 - n) % 4294967296) as u32;
    }
    (z as u64 % 4294967296) as u32
}

fn product(a: i64, b: i64) -> i64
    requires { (mag a < 2147483648) × (mag b < 2147483648) }
    ensures { (result ≡ a *ℤ b) × (mag result < 9223372036854775808) }
{
    a * b
}

// Cut toward zero; the remainder takes the dividend's sign.
fn divide(a: i64, b: i64) -> Parts
    requires { (mag a < 2147483648) × (b ≡ pos 0 → ⊥) }
    ensures value { result ≡ record { q = quot_z a b; r = rem_z a b } }
    ensures q_bound { (mag result.q < 9223372036854775808) × (mag result.r < 9223372036854775808) }
{
    Parts { q: a / b, r: a % b }
}

// Whether a quotient lies outside 16 bits, at either end.
fn outside_word(q: i64) -> bool
    ensures { result ≡ outside_word q }
{
    let below = q < -32768;
    let above = 32767 < q;
    below | above
}

// A 32-bit product with its flags.
fn product_result(v: u32, old: u32) -> flags::Flagged
    ensures { result ≡ product_result v old }
{
    let c = flags::flags(flags::x_of(old), 2147483648 <= v, v == 0, false, false);
    flags::Flagged { value: v, ccr: c }
}

// MULS: the low words as signed numbers.
pub fn multiply_signed(a: u32, b: u32, old: u32) -> flags::Flagged
    ensures { result ≡ multiply_signed a b old }
{
    product_result(low_long(product(signed_word(a), signed_word(b))), old)
}

// MULU: the low words as they are.
pub fn multiply_unsigned(a: u32, b: u32, old: u32) -> flags::Flagged
    ensures { result ≡ multiply_unsigned a b old }
{
    product_result(a % 65536 * (b % 65536), old)
}

// A divisor of 0: the register a stays.
fn zero_divide(a: u32, old: u32) -> Divided
    ensures { result ≡ zero_divide a old }
{
    let c = flags::flags(flags::x_of(old), false, false, false, false);
    Divided {
        value: a,
        ccr: c,
        zero: true,
    }
}

// A quotient q and a remainder r of the register a, or an overflow, which leaves it.
fn quotient_result(over: bool, q: u32, r: u32, a: u32, old: u32) -> Divided
    ensures { result ≡ quotient_result over q r a old }
{
    let x = flags::x_of(old);
    if over {
        let kept = flags::flags(x, flags::n_of(old), flags::z_of(old), true, false);
        return Divided {
            value: a,
            ccr: kept,
            zero: false,
        };
    }
    let w = q % 65536;
    let c = flags::flags(x, 32768 <= w, w == 0, false, false);
    Divided {
        value: r % 65536 * 65536 + w,
        ccr: c,
        zero: false,
    }
}

// DIVS: the long a by the low word of b, as signed numbers.
pub fn divide_signed(a: u32, b: u32, old: u32) -> Divided
    ensures { result ≡ divide_signed a b old }
{
    let none = b % 65536 == 0;
    if none {
        return zero_divide(a, old);
    }
    let d = divide(signed_long(a), signed_word(b));
    let q = d.q;
    let r = d.r;
    quotient_result(outside_word(q), low_long(q), low_long(r), a, old)
}

// DIVU: the long a by the low word of b.
pub fn divide_unsigned(a: u32, b: u32, old: u32) -> Divided
    ensures { result ≡ divide_unsigned a b old }
{
    let w = b % 65536;
    let none = w == 0;
    if none {
        return zero_divide(a, old);
    }
    let q = a / w;
    quotient_result(65535 < q, q, a % w, a, old)
}
