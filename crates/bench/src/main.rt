// main.rt - what so many steps of an image give; or, to measure with, the steps alone.
// Means: nothing; proved safe.
// Uses: console, asking, running.  Source: [ours].
//
// Arguments, in any number: a count of steps tells what that many steps from a reset give; `speed COUNT` only runs
// them, and `undo COUNT` runs each, undoes it and runs it again: both tell clocks and slots alone. In all three every
// record is kept, and the journal starts again when it is full; so it does with `records COUNT`, which tells the records
// themselves, a line for each start of the journal. `dropping COUNT` runs the steps in the manner that drops the oldest
// records, and `singly COUNT` takes them so one by one: both tell the mark, the hash of the whole journal, the bytes
// moved and the records dropped too. The image is standard input, or the file of an `image FILE` before the counts;
// `memory BYTES`, `rom BYTES` and `journal BYTES` before them say how much is lent: else 65,536 bytes, none, and
// 1,048,576. The ROM is all 0; its length is a number that no compiler knows, so that what a step pays for it is counted.
// A memory above 65,536 bytes needs a stack of 64 MiB, as `./run` gives it. An argument that is none of these, or a length
// that cannot be lent, is told on standard error and passed over.
#![tactic(auto)]

mod asking;
mod running;

use asking::{Asked, Lengths, Word};
use console::{arguments, opened, tell_failed};
use running::{Lent, Progress, Way, hash_of};
use std::fmt::{Display, Formatter};
use std::io::Read;
use std::{fmt, io};

// how many bytes an image has: those after the file's are 0
const IMAGE: usize = 65536;

fn read_image(rt: &impl AllocGlobal, from: &mut impl Read) -> io::Result<Vec<u8>> {
    let mut image = vec![in rt.alloc(); 0; IMAGE]?;
    console::read_full(from, image.as_mut_slice())?;
    Ok(image)
}

// ---- a run

// Numbers in base 16, with commas between.
#[derive(Clone, Copy)]
struct Listed<'a>(&'a [u32]);

impl Display for Listed<'_> {
    fn fmt<W: fmt::Write>(&self, f: &mut Formatter<W>) -> fmt::Result {
        for (i, n) in self.0.iter().enumerate() {
            if i > 0 {
                f.write_str(",")?;
            }
            write!(f, "{n:x}")?;
        }
        Ok(())
    }
}

// What a run gave, before its clocks and slots. Where records are dropped the hash is that of all the journal.
fn tell_run(rt: &impl Print, way: Way, p: Progress, lent: &Lent) -> io::Result<()> {
    match way {
        Way::Hashed => print!(rt;
            "steps {} journal {} jhash {:08x} memhash {:08x} ",
            p.steps,
            p.bytes,
            p.hash,
            hash_of(lent.memory.as_slice())
        ),
        Way::Dropping | Way::Singly => print!(rt;
            "steps {} mark {} jhash {:08x} memhash {:08x} moved {} dropped {} ",
            p.steps,
            p.mark,
            hash_of(lent.journal.as_slice()),
            hash_of(lent.memory.as_slice()),
            p.moved,
            p.dropped
        ),
        Way::Alone | Way::Undone | Way::Records => Ok(()),
    }
}

// Runs so many steps on a memory that begins with the image.
fn run(
    rt: &(impl Print + AllocGlobal),
    image: &[u8],
    lengths: Lengths,
    way: Way,
    count: u64,
) -> io::Result<()> {
    let mut memory = Vec::from_slice(rt.alloc(), image)?;
    memory.resize(lengths.memory, 0)?;
    let rom = vec![in rt.alloc(); 0; lengths.rom]?;
    let journal = vec![in rt.alloc(); 0; lengths.journal]?;
    let mut lent = Lent::new(memory, rom, journal);
    let p = running::run_all(rt, &mut lent, way, count)?;
    tell_run(rt, way, p, &lent)?;
    println!(rt; "clocks {} state {}", p.clocks, Listed(&lent.slots))
}

// ---- the arguments

// What the arguments asked so far: the image, once it was read, and how much is lent.
#[derive(Drop)]
struct Bench {
    image: Option<Vec<u8>>,
    lengths: Lengths,
}

impl Bench {
    // Reads the image from a file. Where that can not be opened the image stays what it was, or is all 0.
    fn load(&mut self, rt: &HostRuntime, path: &[u8]) -> io::Result<()> {
        match opened(rt, path) {
            Ok(mut file) => self.image = Some(read_image(rt, &mut file)?),
            Err(e) => {
                tell_failed(rt, path, &e)?;
                self.image
                    .get_or_try_insert_with(|| vec![in rt.alloc(); 0; IMAGE])?;
            }
        }
        Ok(())
    }

    // Does what is asked. The image of a run is that of standard input if no file was named before.
    fn obey(&mut self, rt: &HostRuntime, asked: Option<Asked>) -> io::Result<()> {
        match asked {
            Some(Asked::Image(path)) => self.load(rt, path)?,
            Some(Asked::Memory(n)) => self.lengths.memory = n,
            Some(Asked::Rom(n)) => self.lengths.rom = n,
            Some(Asked::Journal(n)) => self.lengths.journal = n,
            Some(Asked::Run(way, count)) => {
                let image = self
                    .image
                    .get_or_try_insert_with(|| read_image(rt, &mut rt.reader()))?;
                run(rt, image.as_slice(), self.lengths, way, count)?;
            }
            None => rt.eprintln("bench: an argument is no count, or no length that can be lent")?,
        }
        Ok(())
    }
}

fn main(rt: HostRuntime) -> io::Result<()> {
    let texts = arguments(&rt)?;
    let mut bench = Bench {
        image: None,
        lengths: Lengths::new(),
    };
    let mut word = None;
    for text in &texts {
        let text = text.as_slice();
        let before = word.take();
        if before.is_none() {
            word = Word::of(text);
        }
        if word.is_none() {
            bench.obey(
                &rt,
                before.unwrap_or(Word::Count(Way::Hashed)).asked(&rt, text),
            )?;
        }
    }
    Ok(())
}
