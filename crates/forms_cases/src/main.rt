// main.rt - reads cases of converting a journal from standard input, a line each, and counts those that agree, differ and are skipped.
// Means: of of_conversion, that what agrees is equal; else nothing, proved safe.
// Uses: forms, compare, cases.  Source: [K8], crates/forms_cases/README.md.
#![tactic(auto)]

ghost use Rattle.std.specs.Prelude.{◌≡◌};
ghost use Rattle.compare.specs.Verdict.{TellsAgrees};

use cases::lines::Line;
use cases::setting::put_all;
use cases::suite;
use cases::suite::Suite;
use cases::tally::Finding;
use cases::text::decimal;
use compare::same;
use std::{fmt, io};

// What a case that differs is found to differ by.
#[derive(Clone, Copy)]
enum Difference {
    Number,
    Length,
    Target,
}

impl fmt::Display for Difference {
    fn fmt<W: fmt::Write>(&self, f: &mut fmt::Formatter<W>) -> fmt::Result {
        f.write_str(match self {
            Difference::Number => "number",
            Difference::Length => "length",
            Difference::Target => "target",
        })
    }
}

// The refusal's number or 0, and the length of the other form.
#[derive(Clone, Copy)]
struct Answer {
    number: u64,
    length: u64,
}

// A line's fields.
#[derive(Clone, Copy)]
struct Case<'a> {
    form: &'a [u8],
    source: &'a [u8],
    before: &'a [u8],
    due: Answer,
    after: &'a [u8],
}

impl<'a> Case<'a> {
    // The case that a line is, if it is one: just six fields.
    fn of(text: &'a [u8]) -> Option<Case<'a>> {
        let mut fields = text.split(|b| *b == b' ');
        let case = Case {
            form: fields.next()?,
            source: fields.next()?,
            before: fields.next()?,
            due: Answer {
                number: decimal(fields.next()?)? as u64,
                length: decimal(fields.next()?)? as u64,
            },
            after: fields.next()?,
        };
        fields.next().is_none().then_some(case)
    }
}

// The first thing in which an answer and the target after it differ from what is due, or that all agrees.
fn of_conversion(given: Answer, due: Answer, target: &[u8], wanted: &[u8]) -> Result<(), Difference>
    ensures { TellsAgrees result ((given ≡ due) × (target.now ≡ wanted.now)) }
{
    if given.number != due.number {
        return Err(Difference::Number);
    }
    if given.length != due.length {
        return Err(Difference::Length);
    }
    if !same(target, wanted) {
        return Err(Difference::Target);
    }
    Ok(())
}

// Room for the longest source and targets that a line can spell.
#[derive(Drop)]
struct Forms {
    source: [u8; 4096],
    target: [u8; 4096],
    wanted: [u8; 4096],
}

impl Forms {
    // Converts the source from the form that the line says, and compares; None where it is no case.
    fn try_case(&mut self, text: &[u8]) -> Option<Result<(), Difference>> {
        let case = Case::of(text)?;
        let source = put_all(case.source, &mut self.source)?;
        let target = put_all(case.before, &mut self.target)?;
        let wanted = put_all(case.after, &mut self.wanted)?;
        let answer = match case.form {
            b"1" => forms::to_form_two(source, target),
            b"2" => forms::to_form_one(source, target),
            _ => return None,
        };
        let given = Answer {
            number: answer.number as u64,
            length: answer.length as u64,
        };
        Some(of_conversion(given, case.due, target, wanted))
    }
}

impl Suite for Forms {
    type Difference = Difference;

    // A line that is no case, or too long, is skipped.
    fn try_line(&mut self, line: Line<'_>) -> io::Result<Finding<Difference>> {
        let found = if line.is_whole {
            self.try_case(line.text)
        } else {
            None
        };
        Ok(found.map_or(Finding::Skipped, Finding::from))
    }
}

fn main(rt: HostRuntime) -> io::Result<()> {
    let mut forms = Forms {
        source: [0; 4096],
        target: [0; 4096],
        wanted: [0; 4096],
    };
    let tally = suite::try_all(&rt, &mut forms)?;
    println!(rt; "{tally}")
}
