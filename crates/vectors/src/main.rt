// main.rt - reads cases from standard input, a line each, and counts those that agree, differ and are skipped.
// Means: nothing; proved safe.
// Uses: compare, cases, stack_limit.  Source: [01 Set down and proved], crates/vectors/README.md.
#![tactic(auto)]

use cases::fields::Case;
use cases::lines::Line;
use cases::suite;
use cases::suite::Suite;
use cases::tally::Finding;
use cases::text::field;
use cases::trying::try_on;
use compare::verdicts::Difference;
use std::alloc::AllocError;
use std::io;

// bytes of a small memory. The memories are on the heap, but what was refused where the stack is small still is: whoever counts what is
// skipped counts the same.
const SMALL: usize = 65536;

// Whether the stack is large, and room for the longest memories and ROM of the lines so far: new room for each line would cost more than
// its step.
#[derive(Drop)]
struct Vectors {
    large: bool,
    memory: Vec<u8>,
    wanted: Vec<u8>,
    rom: Vec<u8>,
}

// Lengthens a buffer that has fewer than n bytes. What it held goes first: room that grows is doubled, and held twice while it moves.
fn lengthen(buffer: &mut Vec<u8>, n: usize) -> Result<(), AllocError> {
    if buffer.len() < n {
        buffer.clear();
        buffer.shrink_to_fit();
        buffer.resize(n, 0)?;
    }
    Ok(())
}

impl Suite for Vectors {
    type Difference = Difference;

    // A line that is too long is no case.
    fn try_line(&mut self, line: Line<'_>) -> io::Result<Finding<Difference>> {
        let case = match Case::of(line.text) {
            Some(case) if line.is_whole => case,
            _ => return Ok(Finding::Differs(Difference::NoCase)),
        };
        if SMALL < case.memory_length && !self.large {
            return Ok(Finding::Skipped);
        }
        lengthen(&mut self.memory, case.memory_length)?;
        lengthen(&mut self.wanted, case.memory_length)?;
        lengthen(&mut self.rom, case.rom_length())?;
        Ok(try_on(&case, &mut self.memory, &mut self.wanted, &mut self.rom))
    }

    fn write_name<P: Print>(&self, rt: &P, line: Line<'_>) -> io::Result<()> {
        rt.write_all(b" ")?;
        rt.write_all(field(line.text, 0))
    }
}

fn main(rt: HostRuntime) -> io::Result<()> {
    let mut vectors = Vectors {
        large: stack_limit::is_large(&rt),
        memory: Vec::new(rt.alloc()),
        wanted: Vec::new(rt.alloc()),
        rom: Vec::new(rt.alloc()),
    };
    let tally = suite::try_all(&rt, &mut vectors)?;
    if 0 < tally.skipped {
        println!(rt;
            "skipped: memory above {SMALL} bytes, and no stack limit of 64 MiB or more is told"
        )?;
    }
    println!(rt; "{tally}")
}
