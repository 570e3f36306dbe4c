// words.rt - the words after the program's name: which addresses, steps, start and stack they ask, and the name of a ROM's file.
// Means: nothing; proved safe.
// Uses: bus.  Source: [ours].
ghost use Rattle.std.specs.Prelude.{◌≤◌};

use bus::Window;

// how many bytes a memory has here
pub const MEMORY: u32 = 65536;

// the steps that are allowed where no word says it
const STEPS: u32 = 100000;

// numbers in base 10 are taken up to below this, though more fit 32 bits: what is refused may not change
const MOST_TEN: u32 = 2684354560;

// What the words ask: the start is that of a reset where no word says it.
#[derive(Clone, Copy)]
pub struct Asked<'a> {
    pub win: Window,
    pub steps: u32,
    pub pc: Option<u32>,
    pub stack: u32,
    pub rom: Option<&'a [u8]>,
}

// The number of 32 bits that text spells in this base.
fn number(text: &[u8], base: u32) -> Option<u32>
    requires { (2 ≤ base) × (base ≤ 36) }
{
    if !text.iter().all(|&b| char::from(b).is_digit(base)) {
        return None;
    }
    u32::from_str_radix(str::from_utf8(text).ok()?, base).ok()
}

fn in_ten(text: &[u8]) -> Option<u32> {
    number(text, 10).filter(|&n| n < MOST_TEN)
}

fn in_sixteen(text: &[u8]) -> Option<u32> {
    number(text, 16)
}

// Word k, counted from 0, if it is there and no dash.
fn said(words: &[Vec<u8>], k: usize) -> Option<&[u8]> {
    words
        .get(k)
        .map(|word| word.as_slice())
        .filter(|&word| word != b"-".as_slice())
}

impl<'a> Asked<'a> {
    // Nothing where there are too many words, or one is no number.
    pub fn of(words: &'a [Vec<u8>]) -> Option<Asked<'a>> {
        if words.len() > 6 {
            return None;
        }
        let lo = said(words, 0).map_or(Some(0), in_sixteen)?;
        let hi = said(words, 1).map_or(Some(MEMORY), in_sixteen)?;
        let steps = said(words, 2).map_or(Some(STEPS), in_ten)?;
        let pc = match said(words, 3) {
            Some(word) => Some(in_sixteen(word)?),
            None => None,
        };
        // The stack that no word names: at the window's end, or at memory's where the window reaches into ROM.
        let stack = said(words, 4).map_or(Some(hi.min(MEMORY)), in_sixteen)?;
        Some(Asked {
            win: Window { lo, hi },
            steps,
            pc,
            stack,
            rom: said(words, 5),
        })
    }
}
