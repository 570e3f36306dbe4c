// lib.rt - what programs for a person share: their arguments, what an input has, files that can not be opened; counts and bytes as text.
// Means: nothing; proved safe.
// Uses: codes.  Source: [ours].
#![tactic(auto)]

pub mod slots;

ghost use Rattle.std.specs.Prelude.{◌≤◌, length, vec_len, All, IfOk, IfSome};

use std::env::{Env, FillError};
use std::fmt::{Display, Formatter};
use std::fs::File;
use std::io::Read;
use std::{fmt, io};

// ---- text

// So many of something, whose name here has no s at its end.
#[derive(Clone, Copy)]
pub struct Counted<'a>(pub u64, pub &'a str);

impl Display for Counted<'_> {
    fn fmt<W: fmt::Write>(&self, f: &mut Formatter<W>) -> fmt::Result {
        let Counted(n, name) = *self;
        let end = if n == 1 { "" } else { "s" };
        write!(f, "{n} {name}{end}")
    }
}

// Bytes in base 16, with a space before each.
#[derive(Clone, Copy)]
pub struct Bytes<'a>(pub &'a [u8]);

impl Display for Bytes<'_> {
    fn fmt<W: fmt::Write>(&self, f: &mut Formatter<W>) -> fmt::Result {
        for b in self.0 {
            write!(f, " {b:02x}")?;
        }
        Ok(())
    }
}

// ---- input

// Reads until buf is full or the input ends, and answers how many bytes it put at the start of buf.
pub fn read_full(input: &mut impl Read, buf: &mut [u8]) -> io::Result<usize>
    ensures { IfOk result (λ n. n ≤ length buf.new) }
{
    let mut done = 0;
    // A while: a read may give fewer bytes than are asked for.
    while done < buf.len() {
        let n = input.read(&mut buf[done..])?;
        if n == 0 {
            break;
        }
        done += n;
    }
    Ok(done)
}

// All bytes that an input has, or none where it has more than so many.
pub fn read_at_most<R: AllocGlobal>(
    rt: &R,
    input: &mut impl Read,
    most: usize,
) -> io::Result<Option<Vec<u8>>>
    ensures { IfOk result (λ read. IfSome read (λ bytes. vec_len bytes ≤ most)) }
{
    // All the room at once, and what is not needed given back: room that grows is doubled, and would end a third above the longest input of
    // post.
    let limit = most.saturating_add(1);
    let mut bytes = Vec::with_capacity(rt.alloc(), limit)?;
    input.by_ref().take(limit as u64).read_to_end(&mut bytes)?;
    bytes.shrink_to_fit();
    if bytes.len() <= most {
        Ok(Some(bytes))
    } else {
        Ok(None)
    }
}

// ---- arguments

// Puts argument i at the start of text, and answers its length: 0 where it is missing or longer than text.
pub fn argument(rt: &impl Env, i: usize, text: &mut [u8]) -> usize
    ensures { result ≤ length text.new }
{
    rt.arg(i, text).unwrap_or(0)
}

// How many arguments there are, with the program's name.
pub fn argument_count(rt: &impl Env) -> usize {
    for i in 0..usize::MAX {
        if let Err(FillError::NotPresent) = rt.arg(i, &mut []) {
            return i;
        }
    }
    usize::MAX
}

// An argument that is longer counts as empty.
const LONGEST: usize = 4096;

// The arguments after the program's name. They are bytes, which need not be text.
pub fn arguments<R: Env + AllocGlobal>(rt: &R) -> io::Result<Vec<Vec<u8>>>
    ensures { IfOk result (λ all. All (λ text. vec_len text ≤ 4096) all.items) }
{
    let mut all = Vec::new(rt.alloc());
    let mut text = [0u8; LONGEST];
    for i in 1..argument_count(rt) {
        let n = argument(rt, i, &mut text);
        all.push(Vec::from_slice(rt.alloc(), &text[..n])?)?;
    }
    Ok(all)
}

// ---- files that an argument names

// A path that is no text names no file.
pub fn opened(rt: &HostRuntime, path: &[u8]) -> io::Result<File> {
    match str::from_utf8(path) {
        Ok(name) => File::open(rt, name),
        Err(_) => Err(io::Error::from(io::ErrorKind::InvalidFilename)),
    }
}

// Tells on standard error why a file can not be opened: the system's words for the error, without its number behind them.
pub fn tell_failed(rt: &HostRuntime, path: &[u8], e: &io::Error) -> io::Result<()> {
    let text = e.to_string(rt.alloc())?;
    let words = text
        .split_once(" (os error ")
        .map_or(text.as_str(), |(words, _)| words);
    rt.stderr().write_all(path)?;
    eprintln!(rt; ": {words}")
}

#[cfg(test)]
mod tests {
    use super::*;
    use std::test::Fail;

    #[test]
    fn input_is_read_up_to_a_length(rt: HostRuntime) -> Result<(), Fail> {
        let mut input = b"four".as_slice();
        let bytes = read_at_most(&rt, &mut input, 4)?;
        assert!(rt; bytes.is_some_and(|bytes| bytes.as_slice() == b"four".as_slice()));
        let mut input = b"four".as_slice();
        assert!(rt; read_at_most(&rt, &mut input, 3)?.is_none());
        Ok(())
    }

    #[test]
    fn a_test_has_few_arguments(rt: HostRuntime) -> Result<(), Fail> {
        assert!(rt; arguments(&rt)?.len() < 100);
        Ok(())
    }
}
