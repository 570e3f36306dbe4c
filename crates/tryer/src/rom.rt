// rom.rt - the ROM that a word names, read from its file.
// Means: nothing; proved safe.
// Uses: codes, console.  Source: [ours]; the length is that of [K10].
use codes::MOST_ROM;
use console::{opened, read_at_most, tell_failed};
use std::io;

// Reads the file of this name, or tells why it can not be read.
fn read_file(rt: &HostRuntime, path: &[u8]) -> io::Result<Option<Vec<u8>>> {
    let mut file = match opened(rt, path) {
        Ok(file) => file,
        Err(e) => {
            tell_failed(rt, path, &e)?;
            return Ok(None);
        }
    };
    let rom = read_at_most(rt, &mut file, MOST_ROM)?;
    if rom.is_none() {
        eprintln!(rt; "tryer: the ROM has more than {MOST_ROM} bytes")?;
    }
    Ok(rom)
}

// The ROM, which has no bytes where no file is named; or none where it can not be read, and that is told.
pub fn read(rt: &HostRuntime, path: Option<&[u8]>) -> io::Result<Option<Vec<u8>>> {
    match path {
        Some(path) => read_file(rt, path),
        None => Ok(Some(Vec::new(rt.alloc()))),
    }
}
