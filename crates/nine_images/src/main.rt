// main.rt - the nine lines of each image that an argument names, under its name.
// Means: nothing; proved safe.
// Uses: console, nine.  Source: [01 Set down and proved].
#![tactic(auto)]

use console::{arguments, opened, tell_failed};
use std::io;

// The lines of one image, or why it can not be opened.
fn show(rt: &HostRuntime, path: &[u8]) -> io::Result<()> {
    match opened(rt, path) {
        Ok(mut image) => {
            let mut memory = [0u8; 65536];
            console::read_full(&mut image, &mut memory)?;
            rt.write_all(path)?;
            rt.write_all(b"\n")?;
            nine::nine_lines(rt, &mut memory)
        }
        Err(e) => tell_failed(rt, path, &e),
    }
}

fn main(rt: HostRuntime) -> io::Result<()> {
    let paths = arguments(&rt)?;
    for path in &paths {
        show(&rt, path.as_slice())?;
    }
    Ok(())
}
