// lib.rt - the eight shifts and rotates at three sizes: result and flags. No registers, no memory.
// Means: specs/Shift.antt.  Laws: proofs/ShiftLaws.antt.
// Uses: flags, bits.  Source: [003 B ASL LSL ROL ROXL], [003 A-1], [01 Arithmetic].
#![tactic(auto)]

ghost use Rattle.std.specs.Prelude.{◌≡◌};
ghost use Rattle.bits.specs.Bits.{iter};
ghost use Rattle.shift.specs.Shift.{by_kind, one_left, one_right, one_place, shift};

// A number on its way: X, the bit that went out last, and whether the top bit changed at any point.
#[derive(Clone, Copy)]
struct Moving {
    v: u32,
    x: bool,
    out: bool,
    changed: bool,
}

// By a kind: 0 arithmetic, 1 logical, 2 rotate with extend, else rotate.
#[tactic(auto, unfolding(crate::specs::Shift::by_kind))]
fn by_kind(k: u32, arithmetic: bool, logical: bool, extend: bool, rotate: bool) -> bool
    ensures { result ≡ by_kind k arithmetic logical extend rotate }
{
    match k {
        0 => arithmetic,
        1 => logical,
        2 => extend,
        _ => rotate,
    }
}

#[tactic(auto, unfolding(crate::specs::Shift::one_left))]
fn one_left(t: Moving, k: u32, z: u32) -> Moving
    ensures { result ≡ one_left k z t }
{
    let h = bits::half_of(z);
    let out = h <= t.v;
    let into = by_kind(k, false, false, t.x, out);
    let v = bits::cut(t.v as u64 * 2 + bits::bit(into) as u64, z);
    let turned = by_kind(k, out ^ (h <= v), false, false, false);
    Moving {
        v,
        x: by_kind(k, out, out, out, t.x),
        out,
        changed: t.changed | turned,
    }
}

#[tactic(auto, using(crate::proofs::ShiftLaws::right_bound), unfolding(crate::specs::Shift::one_right))]
fn one_right(t: Moving, k: u32, z: u32) -> Moving
    ensures { result ≡ one_right k z t }
{
    let h = bits::half_of(z);
    let out = t.v % 2 == 1;
    let into = by_kind(k, h <= t.v, false, t.x, out);
    let v = t.v / 2 + bits::bit(into) * h;
    Moving {
        v,
        x: by_kind(k, out, out, out, t.x),
        out,
        changed: t.changed,
    }
}

#[tactic(auto, unfolding(crate::specs::Shift::one_place))]
fn one_place(t: Moving, k: u32, left: bool, z: u32) -> Moving
    ensures { result ≡ one_place k left z t }
{
    if left {
        return one_left(t, k, z);
    }
    one_right(t, k, z)
}

#[tactic(auto, using(bits::proofs::BitsLaws::turns_start, bits::proofs::BitsLaws::turns_again, bits::proofs::BitsLaws::turns_end))]
fn places(t: Moving, n: u32, k: u32, left: bool, z: u32) -> Moving
    ensures { result ≡ iter (one_place k left z) n t }
{
    let mut m = t;
    for _ in 0..n {
        m = one_place(m, k, left, z);
    }
    m
}

// The low part of v of size z, moved n modulo 64 places to the left or to the right.
#[tactic(auto, unfolding(crate::specs::Shift::shift))]
pub fn shift(kind: u32, left: bool, v: u32, n: u32, z: u32, old: u32) -> flags::Flagged
    ensures { result ≡ shift kind left v n z old }
{
    let x = flags::x_of(old);
    let out = by_kind(kind, false, false, x, false);
    let w = bits::cut(v as u64, z);
    let start = Moving {
        v: w,
        x,
        out,
        changed: false,
    };
    let t = places(start, n % 64, kind, left, z);
    let h = bits::half_of(z);
    let c = flags::flags(t.x, h <= t.v, t.v == 0, t.changed, t.out);
    flags::Flagged { value: t.v, ccr: c }
}
