// running.rt - runs of many steps from a reset: with a journal that starts again when it is full, or whose oldest records are dropped.
// Means: nothing; proved safe.
// Uses: bus, calls, codes, keeping, machine.  Source: [01 Calls and what they give back], [K5]; the hash is FNV-1a of 32 bits.
ghost use Rattle.std.specs.Prelude.{◌<◌};

use bus::Window;
use calls::{RunAnswer, StepAnswer};
use codes::SLOTS;
use std::fmt::{Display, Formatter};
use std::{fmt, io};

// no program reaches this address
const STOP: u32 = 4294967295;

// the largest budget that a run takes
const BUDGET: u64 = 1000000;

// How steps are run. All records are kept, and the journal starts again: with its hash; the steps alone; each undone once and done again;
// with the records themselves. Or the oldest records are dropped: by runs; by single steps.
#[derive(Clone, Copy, PartialEq, Eq)]
pub enum Way {
    Hashed,
    Alone,
    Undone,
    Records,
    Dropping,
    Singly,
}

// ---- hashes and bytes

const HASH_START: u32 = 2166136261;

fn hashed(hash: u32, bytes: &[u8]) -> u32 {
    bytes
        .iter()
        .fold(hash, |h, &b| (h ^ u32::from(b)).wrapping_mul(16777619))
}

pub fn hash_of(bytes: &[u8]) -> u32 {
    hashed(HASH_START, bytes)
}

// Bytes in base 16, with nothing between.
#[derive(Clone, Copy)]
struct Digits<'a>(&'a [u8]);

impl Display for Digits<'_> {
    fn fmt<W: fmt::Write>(&self, f: &mut Formatter<W>) -> fmt::Result {
        for b in self.0 {
            write!(f, "{b:02x}")?;
        }
        Ok(())
    }
}

// ---- a part of a run

// What a call did: its steps, the journal's mark after it, its clocks, the bytes that it moved and the records that it dropped.
#[derive(Clone, Copy)]
struct Part {
    steps: u64,
    mark: usize,
    clocks: u64,
    moved: u64,
    dropped: u64,
}

impl From<RunAnswer> for Part {
    fn from(a: RunAnswer) -> Part {
        Part {
            steps: u64::from(a.steps),
            mark: a.mark,
            clocks: u64::from(a.clocks),
            moved: a.moved,
            dropped: a.dropped,
        }
    }
}

impl From<StepAnswer> for Part {
    fn from(a: StepAnswer) -> Part {
        Part {
            steps: u64::from(a.number == 0),
            mark: a.mark,
            clocks: u64::from(a.clocks),
            moved: a.moved as u64,
            dropped: a.dropped as u64,
        }
    }
}

// ---- what is lent

// What the calls are lent.
#[derive(Drop)]
pub struct Lent {
    pub slots: [u32; SLOTS],
    win: Window,
    pub memory: Vec<u8>,
    rom: Vec<u8>,
    pub journal: Vec<u8>,
}

impl Lent {
    // Resets by the image that memory has.
    pub fn new(memory: Vec<u8>, rom: Vec<u8>, journal: Vec<u8>) -> Lent {
        let mut slots = [0; SLOTS];
        let a = machine::reset(&mut slots, memory.as_slice(), rom.as_slice());
        Lent {
            slots,
            win: Window { lo: a.lo, hi: a.hi },
            memory,
            rom,
            journal,
        }
    }

    // A run from the journal's start, until so many steps are done or the journal is full.
    fn run_keeping(&mut self, left: u64) -> Part {
        Part::from(keeping::run_keeping(
            &mut self.slots,
            self.win,
            self.memory.as_mut_slice(),
            self.rom.as_slice(),
            left.min(BUDGET) as u32,
            STOP,
            self.journal.as_mut_slice(),
            0,
        ))
    }

    // Undoes all that the journal holds below the mark. Each record has a byte or more, so that there are no more undos than bytes.
    fn undo_all(&mut self, mark: usize) {
        let slots = &mut self.slots;
        let win = self.win;
        let memory = self.memory.as_mut_slice();
        let rom = self.rom.as_slice();
        let journal = self.journal.as_slice();
        let mut at = mark;
        for _ in 0..mark {
            let a = machine::undo(slots, win, memory, rom, journal, at);
            if a.number != 0 || a.mark == 0 {
                return;
            }
            at = a.mark;
        }
    }

    // A run that drops the oldest records.
    fn run_dropping(&mut self, left: u64, mark: usize) -> Part {
        Part::from(machine::run(
            &mut self.slots,
            self.win,
            self.memory.as_mut_slice(),
            self.rom.as_slice(),
            left.min(BUDGET) as u32,
            STOP,
            self.journal.as_mut_slice(),
            mark,
        ))
    }

    // A step that does.
    fn step_dropping(&mut self, mark: usize) -> Part {
        Part::from(machine::step(
            &mut self.slots,
            self.win,
            self.memory.as_mut_slice(),
            self.rom.as_slice(),
            0,
            0,
            self.journal.as_mut_slice(),
            mark,
        ))
    }

    // The journal's bytes below the mark.
    fn records(&self, mark: usize) -> &[u8] {
        let journal = self.journal.as_slice();
        journal.get(..mark).unwrap_or(journal)
    }
}

// ---- a whole run

// How far a run is: steps to do, steps done, journal bytes written and their hash, clocks, the mark, and the sums of bytes moved and of
// records dropped. Where steps are undone and done again each counts its clocks both times.
#[derive(Clone, Copy)]
pub struct Progress {
    left: u64,
    pub steps: u64,
    pub bytes: u64,
    pub hash: u32,
    pub clocks: u64,
    pub mark: usize,
    pub moved: u64,
    pub dropped: u64,
}

impl Progress {
    fn new(count: u64) -> Progress {
        Progress {
            left: count,
            steps: 0,
            bytes: 0,
            hash: HASH_START,
            clocks: 0,
            mark: 0,
            moved: 0,
            dropped: 0,
        }
    }

    // Counts a part. Nothing is left to do after one that did no step.
    fn count(&mut self, part: Part)
        requires { 0 < self.old.left }
        ensures { self.new.left < self.old.left }
    {
        self.left = match part.steps {
            0 => 0,
            steps => self.left.saturating_sub(steps),
        };
        self.steps = self.steps.saturating_add(part.steps);
        self.bytes = self.bytes.saturating_add(part.mark as u64);
        self.clocks = self.clocks.saturating_add(part.clocks);
        self.mark = part.mark;
        self.moved = self.moved.saturating_add(part.moved);
        self.dropped = self.dropped.saturating_add(part.dropped);
    }
}

// Runs so many steps. A write that fails is the only error.
pub fn run_all(rt: &impl Print, lent: &mut Lent, way: Way, count: u64) -> io::Result<Progress> {
    let mut progress = Progress::new(count);
    // A while: a part takes as many steps as the journal has room for.
    while progress.left > 0 {
        if way == Way::Undone {
            let part = lent.run_keeping(progress.left);
            lent.undo_all(part.mark);
            progress.clocks = progress.clocks.saturating_add(part.clocks);
        }
        let part = match way {
            Way::Dropping => lent.run_dropping(progress.left, progress.mark),
            Way::Singly => lent.step_dropping(progress.mark),
            _ => lent.run_keeping(progress.left),
        };
        progress.count(part);
        match way {
            Way::Hashed => progress.hash = hashed(progress.hash, lent.records(part.mark)),
            Way::Records => println!(rt; "{}", Digits(lent.records(part.mark)))?,
            _ => {}
        }
    }
    Ok(progress)
}
