// lines.rt - the lines of an input, one after the other.
// Means: nothing; proved safe.
// Uses: std's reading alone.  Source: [ours].
use std::alloc::Global;
use std::io;
use std::io::{BufRead, BufReader, Read};

// bytes of the longest line that is kept whole, and of a read
const LONGEST: usize = 8192;

const AHEAD: usize = 65536;

// A line without its end: its number from 1, and its bytes, or the first LONGEST if there are more.
#[derive(Clone, Copy)]
pub struct Line<'a> {
    pub number: u64,
    pub text: &'a [u8],
    pub is_whole: bool,
}

// An input, the number of the line that was read last, and its bytes.
#[derive(Drop)]
pub struct Lines<R> {
    input: BufReader<R>,
    number: u64,
    text: Vec<u8>,
}

impl<R: Read + Drop> Lines<R> {
    // Before the first line.
    pub(crate) fn new(alloc: Global, input: R) -> io::Result<Lines<R>> {
        Ok(Lines {
            input: BufReader::with_capacity(alloc, AHEAD, input)?,
            number: 0,
            text: Vec::new(alloc),
        })
    }

    // The next line, if there is one. At the end of the input a line that has bytes is one.
    pub(crate) fn next(&mut self) -> io::Result<Option<Line<'_>>> {
        self.text.clear();
        let mut start = self.input.by_ref().take(LONGEST as u64 + 1);
        if start.read_until(b'\n', &mut self.text)? == 0 {
            return Ok(None);
        }
        if self.text.last() == Some(&b'\n') {
            self.text.pop();
        }
        let is_whole = self.text.len() <= LONGEST;
        if !is_whole {
            self.text.truncate(LONGEST);
            self.input.skip_until(b'\n')?;
        }
        self.number = self.number.wrapping_add(1);
        Ok(Some(Line {
            number: self.number,
            text: self.text.as_slice(),
            is_whole,
        }))
    }
}
