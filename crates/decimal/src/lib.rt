// lib.rt - ABCD, SBCD, NBCD on bytes of any nibbles: result and flags. No registers, no memory.
// Means: specs/Decimal.antt.  Laws: proofs/DecimalLaws.antt.
// Uses: flags, bits.  Source: [003 B ABCD SBCD NBCD], [01 Arithmetic], [K4].
#![tactic(auto)]

ghost use Rattle.std.specs.Prelude.{◌≡◌};
ghost use Rattle.decimal.specs.Decimal.{decimal_result, decimal_add, decimal_subtract, decimal_negate};

// The result byte of a sum or difference, with its flags.
fn decimal_result(total: u32, carry: bool, old: u32) -> flags::Flagged
    ensures { result ≡ decimal_result total carry old }
{
    let v = total % 0x100;
    let negative = 0x80 <= v;
    let zero = flags::z_of(old) & (v == 0);
    let c = flags::flags(carry, negative, zero, flags::v_of(old), carry);
    flags::Flagged { value: v, ccr: c }
}

// Byte a plus byte b plus X of the flags before.
pub fn decimal_add(a: u32, b: u32, old: u32) -> flags::Flagged
    ensures { result ≡ decimal_add a b old }
{
    let low = a % 16 + b % 16 + bits::bit(flags::x_of(old));
    let more = 9 < low;
    let sum = low + bits::bit(more) * 6 + (a / 16 % 16 + b / 16 % 16) * 16;
    let carry = 159 < sum;
    decimal_result(sum - bits::bit(carry) * 160, carry, old)
}

// Byte a less byte b less X of the flags before.
pub fn decimal_subtract(a: u32, b: u32, old: u32) -> flags::Flagged
    ensures { result ≡ decimal_subtract a b old }
{
    let low = 512 + a % 16 - b % 16 - bits::bit(flags::x_of(old));
    let less = low < 512;
    let all = low - bits::bit(less) * 6 + a / 16 % 16 * 16 - b / 16 % 16 * 16;
    let carry = all < 512;
    decimal_result(all + bits::bit(carry) * 160, carry, old)
}

// 0 less byte a less X of the flags before.
pub fn decimal_negate(a: u32, old: u32) -> flags::Flagged
    ensures { result ≡ decimal_negate a old }
{
    decimal_subtract(0, a, old)
}
