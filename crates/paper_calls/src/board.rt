// board.rt - the machine of a case: the slots that it names, a memory of 1,024 bytes with a word at $200, and a journal; and what is told.
// Means: nothing; proved safe.
// Uses: codes, bus, calls, keeping, machine, compare.  Source: [01 Set down and proved].
use bus::Window;
use calls::{ResetAnswer, RunAnswer, StepAnswer, UndoAnswer};
use codes::SLOTS;
use compare::{same, same_slots};
use std::io;

// The window of the cases that speak of none: all of memory.
pub const ALL: Window = Window { lo: 0, hi: 1024 };

// The slots that a case names; the others are 0.
#[derive(Clone, Copy)]
pub struct State {
    pub d0: u32,
    pub d1: u32,
    pub usp: u32,
    pub ssp: u32,
    pub pc: u32,
    pub sr: u32,
    pub mode: u32,
}

// A supervisor at $200, with its stack at the end of memory.
pub const READY: State = State {
    d0: 0,
    d1: 0,
    usp: 0,
    ssp: 0x400,
    pc: 0x200,
    sr: 0x2700,
    mode: codes::RUNNING,
};

// Slots that a reset changes, of a halted machine and of one that runs; and those that it leaves where the vectors are 0, and where it is
// refused.
pub const STALE: State = State {
    d0: 1,
    d1: 1,
    usp: 0,
    ssp: 1,
    pc: 1,
    sr: 1,
    mode: codes::HALTED,
};

pub const STALE_RUNNING: State = State {
    mode: codes::RUNNING,
    ..STALE
};

pub const RESET: State = State {
    ssp: 0,
    pc: 0,
    ..READY
};

pub const REFUSED: State = State {
    sr: 0,
    mode: codes::HALTED,
    ..RESET
};

impl State {
    fn slots(self) -> [u32; SLOTS] {
        let mut s = [0u32; SLOTS];
        s[0] = self.d0;
        s[1] = self.d1;
        s[codes::USP] = self.usp;
        s[codes::SSP] = self.ssp;
        s[codes::PC] = self.pc;
        s[codes::SR] = self.sr;
        s[codes::MODE] = self.mode;
        s
    }
}

// A memory of 1,024 bytes with the word at $200.
pub fn memory_with(word: u16) -> [u8; 1024] {
    let [high, low] = word.to_be_bytes();
    let mut m = [0u8; 1024];
    m[0x200] = high;
    m[0x201] = low;
    m
}

// A journal that begins with the record; all else is 0.
fn journal_with(record: &[u8]) -> [u8; 536] {
    let mut j = [0u8; 536];
    for (place, byte) in j.iter_mut().zip(record) {
        *place = *byte;
    }
    j
}

// Slots or bytes that a call leaves, compared as crates/compare does.
trait Left: Copy {
    const PLACES: usize;

    fn is_same(&self, paper: &Self) -> bool;

    // Alters the lowest bit of place i; done again, that leaves it as it was.
    fn alter(&mut self, i: usize);
}

impl Left for [u32; SLOTS] {
    const PLACES: usize = SLOTS;

    fn is_same(&self, paper: &[u32; SLOTS]) -> bool {
        same_slots(self, paper)
    }

    fn alter(&mut self, i: usize) {
        if let Some(slot) = self.get_mut(i) {
            *slot ^= 1;
        }
    }
}

impl<const N: usize> Left for [u8; N] {
    const PLACES: usize = N;

    fn is_same(&self, paper: &[u8; N]) -> bool {
        same(self, paper)
    }

    fn alter(&mut self, i: usize) {
        if let Some(byte) = self.get_mut(i) {
            *byte ^= 1;
        }
    }
}

// Tells whether this is what the papers say, and how many of what they say, one place altered in each, it is not.
fn tell<T: Left>(rt: &impl Print, what: &str, left: &T, paper: T) -> io::Result<()> {
    let said = if left.is_same(&paper) {
        "as"
    } else {
        "other than"
    };
    let mut wrong = paper;
    let mut differ = 0u64;
    for i in 0..T::PLACES {
        wrong.alter(i);
        differ = differ.saturating_add(u64::from(!left.is_same(&wrong)));
        wrong.alter(i);
    }
    println!(rt; "{what} {said} the papers say, altered ones that differ {differ}")
}

pub fn tell_slots(rt: &impl Print, slots: &[u32; SLOTS], paper: State) -> io::Result<()> {
    tell(rt, "slots", slots, paper.slots())
}

pub fn tell_bytes<const N: usize>(
    rt: &impl Print,
    what: &str,
    bytes: &[u8; N],
    paper: [u8; N],
) -> io::Result<()> {
    tell(rt, what, bytes, paper)
}

#[derive(Clone, Copy)]
pub struct Board {
    pub slots: [u32; SLOTS],
    pub memory: [u8; 1024],
    pub journal: [u8; 536],
}

impl Board {
    // With an empty journal.
    pub fn new(state: State, word: u16) -> Board {
        Board {
            slots: state.slots(),
            memory: memory_with(word),
            journal: [0; 536],
        }
    }

    // The same with this record.
    pub fn recorded(self, record: &[u8]) -> Board {
        Board {
            journal: journal_with(record),
            ..self
        }
    }

    pub fn reset(&mut self, rom: &[u8]) -> ResetAnswer {
        machine::reset(&mut self.slots, &self.memory, rom)
    }

    pub fn step_keeping(&mut self, win: Window, rom: &[u8], mark: usize) -> StepAnswer {
        keeping::step_keeping(
            &mut self.slots,
            win,
            &mut self.memory,
            rom,
            0,
            0,
            &mut self.journal,
            mark,
        )
    }

    pub fn step(&mut self, mark: usize) -> StepAnswer {
        machine::step(
            &mut self.slots,
            ALL,
            &mut self.memory,
            &[],
            0,
            0,
            &mut self.journal,
            mark,
        )
    }

    pub fn run(&mut self, win: Window, budget: u32, stop: u32, mark: usize) -> RunAnswer {
        machine::run(
            &mut self.slots,
            win,
            &mut self.memory,
            &[],
            budget,
            stop,
            &mut self.journal,
            mark,
        )
    }

    pub fn undo(&mut self, win: Window, rom: &[u8], mark: usize) -> UndoAnswer {
        machine::undo(
            &mut self.slots,
            win,
            &mut self.memory,
            rom,
            &self.journal,
            mark,
        )
    }

    // Tells of slots and memory.
    pub fn tell_machine(&self, rt: &impl Print, state: State, word: u16) -> io::Result<()> {
        tell_slots(rt, &self.slots, state)?;
        tell_bytes(rt, "memory", &self.memory, memory_with(word))
    }

    // And of the journal.
    pub fn tell(&self, rt: &impl Print, state: State, word: u16, record: &[u8]) -> io::Result<()> {
        self.tell_machine(rt, state, word)?;
        tell_bytes(rt, "journal", &self.journal, journal_with(record))
    }
}
