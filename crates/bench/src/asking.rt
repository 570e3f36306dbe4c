// asking.rt - what the arguments ask: words, and what each says of the argument after it.
// Means: nothing; proved safe.
// Uses: running, stack_limit.  Source: [ours]; the lengths are those of [01 Calls and what they give back].
use crate::running::Way;
use std::rt::Files;

// What an argument is: a file's name; how many bytes are lent; how many steps are to be run, and in which way.
#[derive(Clone, Copy)]
pub enum Word {
    Image,
    Memory,
    Rom,
    Journal,
    Count(Way),
}

// What an argument asks.
#[derive(Clone, Copy)]
pub enum Asked<'a> {
    Image(&'a [u8]),
    Memory(usize),
    Rom(usize),
    Journal(usize),
    Run(Way, u64),
}

impl Word {
    // What the argument after this text is, if the text is a word.
    pub fn of(text: &[u8]) -> Option<Word> {
        match text {
            b"image" => Some(Word::Image),
            b"memory" => Some(Word::Memory),
            b"rom" => Some(Word::Rom),
            b"journal" => Some(Word::Journal),
            b"speed" => Some(Word::Count(Way::Alone)),
            b"undo" => Some(Word::Count(Way::Undone)),
            b"records" => Some(Word::Count(Way::Records)),
            b"dropping" => Some(Word::Count(Way::Dropping)),
            b"singly" => Some(Word::Count(Way::Singly)),
            _ => None,
        }
    }

    // What the argument asks that has this text, if it has what is wanted there.
    pub fn asked<'a>(self, rt: &(impl Files + Alloc), text: &'a [u8]) -> Option<Asked<'a>> {
        match self {
            Word::Image => Some(Asked::Image(text)),
            Word::Memory => Some(Asked::Memory(memory_length(rt, number(text)?)?)),
            Word::Rom => Some(Asked::Rom(rom_length(number(text)?)?)),
            Word::Journal => Some(Asked::Journal(journal_length(number(text)?)?)),
            Word::Count(way) => Some(Asked::Run(way, number(text)?)),
        }
    }
}

// How many bytes are lent of each.
#[derive(Clone, Copy)]
pub struct Lengths {
    pub memory: usize,
    pub rom: usize,
    pub journal: usize,
}

impl Lengths {
    pub fn new() -> Lengths {
        Lengths {
            memory: 65536,
            rom: 0,
            journal: 1048576,
        }
    }
}

// The number below a million millions that text spells in base 10.
fn number(text: &[u8]) -> Option<u64> {
    if !text.iter().all(u8::is_ascii_digit) {
        return None;
    }
    let n = str::from_utf8(text).ok()?.parse::<u64>().ok()?;
    (n < 1000000000000).then_some(n)
}

// The length of a memory, an even number. One above 65,536 is lent only where the stack is large, though it comes from the heap: what is
// refused may not change.
fn memory_length(rt: &(impl Files + Alloc), n: u64) -> Option<usize> {
    let even = n % 2 == 0;
    let fits = n <= 65536 || n <= 16777216 && stack_limit::is_large(rt);
    (1024 <= n && even && fits).then_some(n as usize)
}

// The length of a ROM, an even number.
fn rom_length(n: u64) -> Option<usize> {
    (n <= 1048576 && n % 2 == 0).then_some(n as usize)
}

// The length of a journal. One of fewer than 536 bytes has no room for a step.
fn journal_length(n: u64) -> Option<usize> {
    (536 <= n && n <= 1048576).then_some(n as usize)
}
