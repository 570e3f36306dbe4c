// main.rt - reads cases of making room from standard input, a line each, and counts those that agree, differ and are skipped.
// Means: of of_room, that what agrees is equal; else nothing, proved safe.
// Uses: oldest, compare, cases.  Source: [K5], crates/rooms/README.md.
#![tactic(auto)]

ghost use Rattle.std.specs.Prelude.{◌≡◌};
ghost use Rattle.compare.specs.Verdict.{TellsAgrees};

use cases::lines::Line;
use cases::setting::put_all;
use cases::suite;
use cases::suite::Suite;
use cases::tally::Finding;
use cases::text::{decimal, number};
use compare::same;
use std::{fmt, io};

// What a case that differs is found to differ by.
#[derive(Clone, Copy)]
enum Difference {
    Number,
    Mark,
    Moved,
    Dropped,
    Journal,
}

impl fmt::Display for Difference {
    fn fmt<W: fmt::Write>(&self, f: &mut fmt::Formatter<W>) -> fmt::Result {
        f.write_str(match self {
            Difference::Number => "number",
            Difference::Mark => "mark",
            Difference::Moved => "bytes moved",
            Difference::Dropped => "records dropped",
            Difference::Journal => "journal",
        })
    }
}

// The refusal's number or 0, the mark, the bytes moved and the records dropped.
#[derive(Clone, Copy)]
struct Answer {
    number: u64,
    mark: u64,
    moved: u64,
    dropped: u64,
}

// A line's fields.
#[derive(Clone, Copy)]
struct Case<'a> {
    length: usize,
    before: &'a [u8],
    mark: usize,
    due: Answer,
    after: &'a [u8],
}

impl<'a> Case<'a> {
    // The case that a line is, if it is one: just eight fields.
    fn of(text: &'a [u8]) -> Option<Case<'a>> {
        let mut fields = text.split(|b| *b == b' ');
        let case = Case {
            length: number(fields.next()?)? as usize,
            before: fields.next()?,
            mark: decimal(fields.next()?)? as usize,
            due: Answer {
                number: decimal(fields.next()?)? as u64,
                mark: decimal(fields.next()?)? as u64,
                moved: decimal(fields.next()?)? as u64,
                dropped: decimal(fields.next()?)? as u64,
            },
            after: fields.next()?,
        };
        fields.next().is_none().then_some(case)
    }
}

// The first thing in which an answer and the journal after it differ from what is due, or that all agrees.
fn of_room(given: Answer, due: Answer, journal: &[u8], wanted: &[u8]) -> Result<(), Difference>
    ensures { TellsAgrees result ((given ≡ due) × (journal.now ≡ wanted.now)) }
{
    if given.number != due.number {
        return Err(Difference::Number);
    }
    if given.mark != due.mark {
        return Err(Difference::Mark);
    }
    if given.moved != due.moved {
        return Err(Difference::Moved);
    }
    if given.dropped != due.dropped {
        return Err(Difference::Dropped);
    }
    if !same(journal, wanted) {
        return Err(Difference::Journal);
    }
    Ok(())
}

// Room for the longest journals that a line can spell.
#[derive(Drop)]
struct Rooms {
    journal: [u8; 4096],
    wanted: [u8; 4096],
}

impl Rooms {
    // Makes room in the journal, and compares with what the line says; None where it is no case.
    fn try_case(&mut self, text: &[u8]) -> Option<Result<(), Difference>> {
        let case = Case::of(text)?;
        let journal = put_all(case.before, &mut self.journal)?;
        let wanted = put_all(case.after, &mut self.wanted)?;
        if journal.len() < case.mark {
            return None;
        }
        let room = oldest::make_room(journal, case.mark, case.length);
        let given = Answer {
            number: room.number as u64,
            mark: room.mark as u64,
            moved: room.moved as u64,
            dropped: room.dropped as u64,
        };
        Some(of_room(given, case.due, journal, wanted))
    }
}

impl Suite for Rooms {
    type Difference = Difference;

    // A line that is no case, or too long, is skipped.
    fn try_line(&mut self, line: Line<'_>) -> io::Result<Finding<Difference>> {
        let found = if line.is_whole {
            self.try_case(line.text)
        } else {
            None
        };
        Ok(found.map_or(Finding::Skipped, Finding::from))
    }
}

fn main(rt: HostRuntime) -> io::Result<()> {
    let mut rooms = Rooms {
        journal: [0; 4096],
        wanted: [0; 4096],
    };
    let tally = suite::try_all(&rt, &mut rooms)?;
    println!(rt; "{tally}")
}
