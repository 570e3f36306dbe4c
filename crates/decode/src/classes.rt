// classes.rt - the classes of addressing modes as 64 bits, and the test whether one allows a word's low six bits.
// Means: fit in specs/Chain.antt.
// Uses: bits.  Source: [003 B-1].
ghost use Rattle.std.specs.Prelude.{◌≡◌};
ghost use Rattle.bits.specs.Bits.{pick};
ghost use Rattle.decode.specs.Chain.{fit};

// the low six bits that a class of modes allows: bit n is set where n is allowed [003 B-1]
pub const EVERY: u64 = 0x1FFF_FFFF_FFFF_FFFF;

pub const DATA: u64 = 0x1FFF_FFFF_FFFF_00FF;

pub const DATA_NOT_IMMEDIATE: u64 = 0x0FFF_FFFF_FFFF_00FF;

pub const DATA_ALTERABLE: u64 = 0x03FF_FFFF_FFFF_00FF;

pub const MEMORY_ALTERABLE: u64 = 0x03FF_FFFF_FFFF_0000;

pub const CONTROL: u64 = 0x0FFF_FF00_00FF_0000;

pub const CONTROL_ALTERABLE_OR_PREDECREMENT: u64 = 0x03FF_FFFF_00FF_0000;

pub const CONTROL_OR_POSTINCREMENT: u64 = 0x0FFF_FF00_FFFF_0000;

pub const DATA_REGISTER: u64 = 0xFF;

pub const ADDRESS_REGISTER: u64 = 0xFF00;

pub const REGISTER_OR_PREDECREMENT: u64 = 0xFFFF;

pub const IMMEDIATE: u64 = 0x1000_0000_0000_0000;

pub fn choose(test: bool, x: u32, y: u32) -> u32
    ensures { result ≡ pick test x y }
{
    if test { x } else { y }
}

// kind where the class allows op's low six bits, else rest
#[tactic(auto, unfolding(crate::specs::Chain::fit))]
pub fn fit(class: u64, op: u32, kind: u32, rest: u32) -> u32
    ensures { result ≡ fit class op kind rest }
{
    let allowed = (class >> (op % 64)) % 2 == 1;
    if allowed { kind } else { rest }
}
