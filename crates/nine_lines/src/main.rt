// main.rt - 01's small program: an image from standard input, four steps, four undos, nine lines.
// Means: nothing; proved safe.
// Uses: console, nine.  Source: [01 Set down and proved].
#![tactic(auto)]

use std::io;

fn main(rt: HostRuntime) -> io::Result<()> {
    let mut memory = [0u8; 65536];
    console::read_full(&mut rt.reader(), &mut memory)?;
    nine::nine_lines(&rt, &mut memory)
}
