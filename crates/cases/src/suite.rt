// suite.rt - tries each line of an input, names those that differ, and counts.
// Means: nothing; proved safe.
// Uses: lines, tally.  Source: [ours].
use crate::lines::{Line, Lines};
use crate::tally::{Finding, Tally};
use std::fmt::Display;
use std::io;

// how many of the cases that differ are named
const NAMED: u64 = 300;

// What a program does with a line.
pub trait Suite {
    type Difference: Display + Drop;

    // What the line shows.
    fn try_line(&mut self, line: Line<'_>) -> io::Result<Finding<Self::Difference>>;

    // Tells what names the case beside the line's number.
    fn write_name<P: Print>(&self, _rt: &P, _line: Line<'_>) -> io::Result<()> {
        Ok(())
    }
}

fn name_case<P: Print, S: Suite>(
    rt: &P,
    suite: &S,
    line: Line<'_>,
    difference: &S::Difference,
) -> io::Result<()> {
    let number = line.number;
    print!(rt; "line {number}")?;
    suite.write_name(rt, line)?;
    println!(rt; ": {difference}")
}

// Tries all lines of standard input. A read or a write that fails is the only error.
pub fn try_all<R: Input + Print + AllocGlobal, S: Suite>(
    rt: &R,
    suite: &mut S,
) -> io::Result<Tally> {
    let mut lines = Lines::new(rt.alloc(), rt.reader())?;
    let mut tally = Tally::default();
    for _ in 0..u64::MAX {
        let Some(line) = lines.next()? else {
            break;
        };
        let found = suite.try_line(line)?;
        if let Finding::Differs(difference) = &found
            && tally.differ < NAMED
        {
            name_case(rt, suite, line, difference)?;
        }
        tally.count(&found);
    }
    Ok(tally)
}
