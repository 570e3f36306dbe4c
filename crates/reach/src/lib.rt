// lib.rt - the parts of memory and of the ROM that are lent for a state: all of both in supervisor state, in user state what lies in the
// window.
// Means: seen_by of bus; specs/Reach.antt.  Laws: proofs/ReachLaws.antt.  Uses: codes, bus.  Source: [K7], [K10].
#![tactic(auto)]

ghost use Rattle.std.specs.Prelude.{◌≡◌, map, ◌-◌, ◌≤◌};
ghost use Rattle.codes.specs.Codes.{RomStart};
ghost use Rattle.bus.specs.Bus.{board_of, seen_by, view_of};
ghost use Rattle.reach.specs.Reach.{up_to};

use bus::{Parts, Window};

// An address, or the length of memory where that is less.
fn up_to(a: u32, len: usize) -> usize
    ensures value { result ≡ up_to a len }
    ensures upper_bound { result ≤ len }
{
    let i = a as usize;
    let short = i < len;
    if short {
        return i;
    }
    len
}

// The place of an address in the ROM, its first where the address lies below; or the length of the ROM where that is less.
fn rom_up_to(a: u32, len: usize) -> usize
    ensures value { result ≡ up_to (a - RomStart) len }
    ensures upper_bound { result ≤ len }
{
    let above = codes::ROM_START <= a;
    if above {
        return up_to(a - codes::ROM_START, len);
    }
    0
}

// What a state may touch. A window that reaches past memory shows what memory has of it; likewise the ROM.
pub fn lent<'a>(sup: bool, win: Window, mem: &'a [u8], rom: &'a [u8]) -> Parts<'a>
    ensures { view_of (map (λ x. x.now) result) ≡ seen_by sup (board_of win rom.now) mem.now }
{
    if sup {
        return bus::whole(mem, rom);
    }
    let lo = up_to(win.lo, mem.len());
    let hi = up_to(win.hi, mem.len());
    let first = rom_up_to(win.lo, rom.len());
    let last = rom_up_to(win.hi, rom.len());
    [&mem[0..lo], &mem[0..hi], &rom[0..first], &rom[0..last]]
}
