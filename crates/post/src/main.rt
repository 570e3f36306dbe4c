// main.rt - what a member runs to attach a journal to a question: it is converted into form 2, for posting, or back, or told in words.
// Means: nothing; proved safe. What a conversion gives is promised by the crate forms.
// Uses: console, forms, stack_limit.  Source: [K8].
//
//     ./run post two < JOURNAL > FILE     converts a journal of form 1 into form 2
//     ./run post one < FILE > JOURNAL     converts it back
//     ./run post show < FILE              tells the records of a file of form 2; `show one`, of a journal of form 1
//
// Standard output has the converted journal, or what is told, and nothing else; standard error says why there is none.
#![tactic(auto)]

mod back;
mod complaints;
mod telling;
mod words;

use complaints::{Complaint, records_of};
use console::{arguments, read_at_most};
use forms::Form;
use std::io;
use words::Asked;

// How many bytes of input and of output are held, where the stack is large and where it may be small, though they come from the heap: what
// is refused may not change. They are those of a journal of 16 MiB, or of 1 MiB, in either form. Form 2 is at most half as long again: a
// lone byte takes two bytes of form 1 or more, and one more of form 2.
const LARGE: usize = 25165824;

const SMALL: usize = 1572864;

// Writes the converted journal, if it has no more bytes than are held.
fn convert(rt: &HostRuntime, form: Form, file: &[u8], held: usize) -> Result<(), Complaint> {
    let mut target = vec![in rt.alloc(); 0u8; held]?;
    let a = forms::convert(form, file, target.as_mut_slice());
    if a.number != 0 {
        records_of(form, file)?;
        return Err(Complaint::TooLongConverted(held));
    }
    target.truncate(a.length);
    rt.write_all(target.as_slice())
        .map_err(|_| Complaint::NotWritten)
}

fn show(rt: &impl Print, form: Form, file: &[u8]) -> Result<(), Complaint> {
    let records = records_of(form, file)?;
    telling::tell(rt, form, file, records)?;
    Ok(())
}

// Does what the words ask with the bytes of standard input, if all of them are held.
fn obey(rt: &HostRuntime) -> Result<(), Complaint> {
    let words = arguments(rt)?;
    let asked = Asked::of(words.as_slice()).ok_or(Complaint::Usage)?;
    let held = if stack_limit::is_large(rt) {
        LARGE
    } else {
        SMALL
    };
    let file = read_at_most(rt, &mut rt.reader(), held)?.ok_or(Complaint::TooLong(held))?;
    match asked {
        Asked::Convert(form) => convert(rt, form, file.as_slice(), held),
        Asked::Show(form) => show(rt, form, file.as_slice()),
    }
}

fn main(rt: HostRuntime) -> io::Result<()> {
    match obey(&rt) {
        Ok(()) => Ok(()),
        Err(Complaint::Failed(e)) => Err(e),
        Err(complaint) => rt.eprintln(complaint),
    }
}
