// read.rt - a record of form 2 read back from its end, into two logs of changes as form 1's are.
// Means: specs/Runs.antt, specs/Two.antt.  Laws: proofs/StepLaws.antt, proofs/ReadRunLaws.antt.
// Uses: undo, record, numbers, codes.  Source: [K8].
ghost use Rattle.std.specs.Prelude.{◌+◌, ◌≤◌, length};
ghost use Rattle.codes.specs.Codes.{Addresses};
ghost use Rattle.numbers.specs.Number.{back};
ghost use Rattle.record.specs.Limits.{slot_limit, byte_limit};
ghost use Rattle.runs.specs.Two.{shaped_two};
ghost use Rattle.runs.specs.Answers.{OldsIs, OneRunIs, AllRunsIs, LoggedIs};

use crate::{AllRuns, Logged, OneRun};
use numbers::read_number;
use record::limits::{BYTE_LIMIT, SLOT_LIMIT};
use undo::{all_valid, read_changes};

// Addresses are below this.
const ADDRESSES: usize = codes::ADDRESSES as usize;

// Reads n old bytes back from place end into the n entries of out from at on, their addresses from first on; tells where they start.
fn read_olds(
    journal: &[u8],
    end: usize,
    n: usize,
    first: usize,
    out: &mut [u64],
    at: usize,
) -> Option<usize>
    requires { (end ≤ length journal.now) × (at + n ≤ byte_limit) × (byte_limit ≤ length out.old) × (first + n ≤ Addresses) }
    ensures { OldsIs journal.now end n first out.old at out.new result }
{
    let mut e = end;
    for k in (0..n).rev() {
        let (old, s) = read_number(journal, e)?;
        if 256 <= old {
            return None;
        }
        out[at + k] = ((first + k) as u64) * 4294967296 + (old as u64);
        e = s;
    }
    Some(e)
}

// Reads one run back from place end into the entries of out below room; it ends before lim.
fn read_run(journal: &[u8], end: usize, lim: usize, room: usize, out: &mut [u64]) -> Option<OneRun>
    requires { (end ≤ length journal.now) × (room ≤ byte_limit) × (byte_limit ≤ length out.old) × (lim ≤ Addresses + 1) }
    ensures { OneRunIs journal.now end lim room out.old out.new result }
{
    let (n, e1) = read_number(journal, end)?;
    let m = n as usize;
    if m == 0 {
        return None;
    }
    if room < m {
        return None;
    }
    let (a, e2) = read_number(journal, e1)?;
    let first = a as usize;
    if lim <= first + m {
        return None;
    }
    let at = room - m;
    let start = read_olds(journal, e2, m, first, out, at)?;
    Some(OneRun { start, at, first })
}

// Reads n runs back from place end into the last entries of out.
fn read_runs(journal: &[u8], end: usize, n: usize, out: &mut [u64]) -> Option<AllRuns>
    requires { (end ≤ length journal.now) × (byte_limit ≤ length out.old) }
    ensures { AllRunsIs journal.now end n out.new result }
{
    // The run before which the next one ends.
    let mut next = OneRun {
        start: end,
        at: BYTE_LIMIT,
        first: ADDRESSES + 1,
    };
    for _ in 0..n {
        next = read_run(journal, next.start, next.first, next.at, out)?;
    }
    Some(AllRuns {
        start: next.start,
        at: next.at,
    })
}

// Reads the well-shaped record of form 2 that ends at the mark: its slots' changes into slots, its bytes' into the last entries of bytes.
#[tactic(auto, unfolding(crate::specs::Two::shaped_two, crate::specs::Two::read_two))]
pub fn shaped_two(
    journal: &[u8],
    mark: usize,
    slots: &mut [u64],
    bytes: &mut [u64],
) -> Option<Logged>
    requires { (mark ≤ length journal.now) × (slot_limit ≤ length slots.old) × (byte_limit ≤ length bytes.old) }
    ensures { LoggedIs (shaped_two (back journal.now mark)) journal.now mark slots.new bytes.new result }
{
    let (nr, e1) = read_number(journal, mark)?;
    let nr = nr as usize;
    if BYTE_LIMIT < nr {
        return None;
    }
    let (ns, e2) = read_number(journal, e1)?;
    let ns = ns as usize;
    if SLOT_LIMIT < ns {
        return None;
    }
    let runs = read_runs(journal, e2, nr, bytes)?;
    let start = read_changes(journal, runs.start, ns, SLOT_LIMIT, slots)?;
    if !all_valid(false, slots, ns) {
        return None;
    }
    Some(Logged {
        slots: ns,
        from: runs.at,
        to: BYTE_LIMIT,
        start,
    })
}
