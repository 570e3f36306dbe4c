// changes.rt - what a try changed: slots by name, memory as runs of neighbouring addresses, each before and after.
// Means: nothing; proved safe.
// Uses: codes, bus, console, ending.  Source: [ours].
use crate::ending::Frame;
use bus::Window;
use codes::SLOTS;
use console::slots::{Name, Value};
use console::{Bytes, Counted};
use std::fmt::{Display, Formatter};
use std::{fmt, io};

// of a longer run so many bytes are shown
const SHOWN: usize = 16;

// ---- slots

pub fn tell_slots(rt: &impl Print, before: &[u32; SLOTS], after: &[u32; SLOTS]) -> io::Result<()> {
    rt.println("changed registers:")?;
    let mut none = true;
    for (k, (&old, &new)) in before.iter().zip(after).enumerate() {
        if old != new {
            none = false;
            println!(rt; "  {:<5}{} -> {}", Name(k), Value(k, old), Value(k, new))?;
        }
    }
    if none {
        rt.println("  none")?;
    }
    Ok(())
}

// ---- memory

// The window, and the exception's frame, if there is one.
#[derive(Clone, Copy)]
pub struct Bounds {
    pub win: Window,
    pub frame: Option<Frame>,
}

impl Bounds {
    fn in_window(&self, place: usize) -> bool {
        self.win.lo as usize <= place && place < self.win.hi as usize
    }

    fn in_frame(&self, place: usize) -> bool {
        self.frame.is_some_and(|frame| frame.has(place))
    }

    // Whether two places are neighbours that lie in the same of these.
    fn joins(&self, i: usize, k: usize) -> bool {
        i.checked_add(1) == Some(k)
            && self.in_window(i) == self.in_window(k)
            && self.in_frame(i) == self.in_frame(k)
    }
}

// The first bytes of a run, and how many more there are.
#[derive(Clone, Copy)]
struct Shown<'a>(&'a [u8]);

impl Display for Shown<'_> {
    fn fmt<W: fmt::Write>(&self, f: &mut Formatter<W>) -> fmt::Result {
        let (shown, more) = self.0.split_at(self.0.len().min(SHOWN));
        write!(f, "{}", Bytes(shown))?;
        if !more.is_empty() {
            write!(f, " .. and {} more", more.len())?;
        }
        Ok(())
    }
}

// Tells of the run from the first place to the last.
fn tell_run(
    rt: &impl Print,
    before: &[u8],
    after: &[u8],
    b: Bounds,
    first: usize,
    last: usize,
) -> io::Result<()> {
    let (Some(old), Some(new)) = (before.get(first..=last), after.get(first..=last)) else {
        return Ok(());
    };
    let outside = if b.in_window(first) {
        ""
    } else {
        ", outside the window"
    };
    let frame = if b.in_frame(first) {
        ": the frame of the exception"
    } else {
        ""
    };
    println!(rt;
        "  {first:06x} to {last:06x}, {}{outside}{frame}",
        Counted(old.len() as u64, "byte")
    )?;
    println!(rt; "    before{}", Shown(old))?;
    println!(rt; "    after {}", Shown(new))
}

// Tells the places whose bytes differ, and the frame whole, since it was written whole.
pub fn tell_memory(
    rt: &(impl Print + AllocGlobal),
    before: &[u8],
    after: &[u8],
    b: Bounds,
) -> io::Result<()> {
    rt.println("changed memory:")?;
    let mut places = Vec::new(rt.alloc());
    for (place, (old, new)) in before.iter().zip(after).enumerate() {
        if old != new || b.in_frame(place) {
            places.push(place)?;
        }
    }
    for run in places.chunk_by(|&i, &k| b.joins(i, k)) {
        if let (Some(&first), Some(&last)) = (run.first(), run.last()) {
            tell_run(rt, before, after, b, first, last)?;
        }
    }
    if places.is_empty() && b.frame.is_none() {
        rt.println("  none")?;
    }
    Ok(())
}
