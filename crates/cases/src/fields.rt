// fields.rt - a line taken apart: what a case says of memory, the step, its undo, clocks, window and ROM.
// Means: of the length of memory, that it is in its limits; else nothing, proved safe.
// Uses: codes, bus, setting, text.  Source: [ours], crates/vectors/README.md.
ghost use Rattle.std.specs.Prelude.{◌≤◌, IfSome};

use crate::setting::put_each;
use crate::text::{decimal, field, halves, marks, number, parted, piece};
use bus::Window;

// Slots and memory, as two fields list them.
#[derive(Clone, Copy)]
pub(crate) struct Lists<'a> {
    pub slots: &'a [u8],
    pub runs: &'a [u8],
}

// What is wanted of an undo, where a line says it: the number, what is then not as before the step, and the mark.
#[derive(Clone, Copy)]
pub(crate) struct Undone<'a> {
    pub number: u32,
    pub lists: Lists<'a>,
    pub mark: usize,
}

// A ROM's length, and its runs if any are listed.
#[derive(Clone, Copy)]
struct Rom<'a> {
    length: usize,
    runs: Option<&'a [u8]>,
}

// A line that is a case. Its lists may still be none.
#[derive(Clone, Copy)]
pub struct Case<'a> {
    pub memory_length: usize,
    pub(crate) level: &'a [u8],
    pub(crate) vector: &'a [u8],
    pub(crate) before: Lists<'a>,
    pub(crate) after: Lists<'a>,
    pub(crate) record: &'a [u8],
    pub(crate) undone: Option<Undone<'a>>,
    clocks: Option<u32>,
    pub(crate) window: Window,
    rom: Option<Rom<'a>>,
}

// A line without its last field, and that field, where it has this name before its equals sign.
fn without_last<'a>(text: &'a [u8], name: &[u8]) -> (&'a [u8], Option<&'a [u8]>) {
    match text.iter().rposition(|b| *b == b' ') {
        Some(i) if piece(&text[i + 1..], b'=', 0) == name => (&text[..i], Some(&text[i + 1..])),
        _ => (text, None),
    }
}

// What a field NAME=VALUE says.
fn value(field: &[u8]) -> Option<&[u8]> {
    let (_, said) = halves(field, b'=')?;
    Some(said)
}

// The length of memory that a field says: even, 1,024 to 16,777,216 bytes.
fn memory_in(field: &[u8]) -> Option<u32>
    ensures { IfSome result (λ n. (1024 ≤ n) × (n ≤ 16777216)) }
{
    let n = number(field)?;
    ((1024..=16777216).contains(&n) && n % 2 == 0).then_some(n)
}

// The clocks that a field `clocks=N` says, N in base 10.
fn clocks_in(field: &[u8]) -> Option<u32> {
    let (name, n) = halves(field, b'=')?;
    if name != b"clocks".as_slice() {
        return None;
    }
    decimal(n)
}

// The window that a field `window=LO,HI` says, in base 16.
fn window_in(field: &[u8]) -> Option<Window> {
    let (lo, hi) = halves(value(field)?, b',')?;
    Some(Window {
        lo: number(lo)?,
        hi: number(hi)?,
    })
}

// The ROM that a field `rom=LENGTH` or `rom=LENGTH,RUNS` says, no longer than one can be. It may be odd.
fn rom_in(field: &[u8]) -> Option<Rom<'_>> {
    let (length, runs) = parted(value(field)?, b',');
    let length = number(length)? as usize;
    (length <= codes::MOST_ROM).then_some(Rom { length, runs })
}

// What the fields after the first ten say of the undo.
fn undone_in(text: &[u8]) -> Option<Undone<'_>> {
    Some(Undone {
        number: number(field(text, 10))?,
        lists: Lists {
            slots: field(text, 11),
            runs: field(text, 12),
        },
        mark: number(field(text, 13))? as usize,
    })
}

impl<'a> Case<'a> {
    // The case that a line is: ten fields, or fourteen with those of the undo; and after them none, clocks, a window or both, and after a
    // window perhaps a ROM.
    pub fn of(text: &'a [u8]) -> Option<Case<'a>>
        ensures { IfSome result (λ c. (1024 ≤ c.memory_length) × (c.memory_length ≤ 16777216)) }
    {
        let (text, rom) = without_last(text, b"rom");
        let (text, window) = without_last(text, b"window");
        if rom.is_some() && window.is_none() {
            return None;
        }
        let (says_undo, clocks) = match marks(text, b' ') {
            9 => (false, None),
            10 => (false, Some(field(text, 10))),
            13 => (true, None),
            14 => (true, Some(field(text, 14))),
            _ => return None,
        };
        let memory = memory_in(field(text, 2))?;
        Some(Case {
            memory_length: memory as usize,
            level: field(text, 3),
            vector: field(text, 4),
            before: Lists {
                slots: field(text, 5),
                runs: field(text, 6),
            },
            after: Lists {
                slots: field(text, 7),
                runs: field(text, 8),
            },
            record: field(text, 9),
            undone: if says_undo {
                Some(undone_in(text)?)
            } else {
                None
            },
            clocks: match clocks {
                Some(said) => Some(clocks_in(said)?),
                None => None,
            },
            window: match window {
                Some(said) => window_in(said)?,
                None => Window { lo: 0, hi: memory },
            },
            rom: match rom {
                Some(said) => Some(rom_in(said)?),
                None => None,
            },
        })
    }

    // The length of its ROM.
    pub fn rom_length(&self) -> usize {
        self.rom.map_or(0, |rom| rom.length)
    }

    // Whether these are the clocks that the line says, if it says any.
    pub(crate) fn has_clocks(&self, clocks: u32) -> bool {
        self.clocks.is_none_or(|due| due == clocks)
    }

    // Puts the runs that the line lists of its ROM, whose places are addresses.
    pub(crate) fn put_rom(&self, rom: &mut [u8]) -> Option<()> {
        match self.rom.and_then(|rom| rom.runs) {
            Some(runs) => put_each(runs, rom, codes::ROM_START),
            None => Some(()),
        }
    }
}
