// lib.rt - how much stack a program may use, as the system tells it.
// Means: nothing; proved safe.
// Uses: nothing.  Source: [ours]; the file is Linux's table of a process's limits.
#![tactic(auto)]

use std::fs;
use std::rt::Files;

// bytes for two memories of 16 MiB and all else, with room to spare
const LARGE: u64 = 67108864;

// The number that a word spells in base 10. Of more than 18 digits the last 18 count, so that no sum overflows.
fn number(word: &str) -> Option<u64> {
    let mut n = 0u64;
    for c in word.chars() {
        let digit = c.to_digit(10)?;
        n = n % 100000000000000000 * 10 + u64::from(digit);
    }
    Some(n)
}

// The first number of the line of text that begins with these words.
fn limit_in(text: &str, name: &str) -> Option<u64> {
    let rest = text.lines().find_map(|line| line.strip_prefix(name))?;
    rest.split_whitespace().find_map(number)
}

// Whether the stack is known to be large: not where the limits can not be read. Where there is no limit an emulator may give a small one: then no.
pub fn is_large(rt: &(impl Files + Alloc)) -> bool {
    match fs::read_to_string(rt, "/proc/self/limits") {
        Ok(text) => limit_in(text.as_str(), "Max stack size").is_some_and(|limit| LARGE <= limit),
        Err(_) => false,
    }
}
