// put.rt - the runs of a log's changes, written.
// Means: specs/Runs.antt.  Laws: proofs/PutLaws.antt.
// Uses: record, numbers.  Source: [K8].
ghost use Rattle.std.specs.Prelude.{◌≡◌, ◌+◌, ◌/◌, ◌^◌, ◌≤◌, ◌<◌, map, length, get_or};
ghost use Rattle.record.specs.Limits.{byte_limit};
ghost use Rattle.record.specs.Change.{unpack, between};
ghost use Rattle.runs.specs.Runs.{numbers_bytes, runs, run_bytes, runs_bytes};
ghost use Rattle.runs.specs.Answers.{olds, follows, BytesPut, PartPut};

use numbers::put_number;
use record::Put;

// Writes the old values of a log's entries.
fn put_olds(out: &mut [u8], at: usize, log: &[u64]) -> usize
    requires { at + length (numbers_bytes (olds (map unpack log.now))) ≤ length out.old }
    ensures { BytesPut out.old at (numbers_bytes (olds (map unpack log.now))) out.new result }
{
    let mut p = at;
    for e in log {
        p = put_number(out, p, (*e % 4294967296) as u32);
    }
    p
}

// Writes the run of a log's entries.
fn put_run(out: &mut [u8], at: usize, log: &[u64]) -> usize
    requires { (0 < length log.now) × (length log.now ≤ byte_limit) × (at + length (run_bytes (record { first = get_or log.now 0 0 / 2 ^ 32; olds = olds (map unpack log.now) })) ≤ length out.old) }
    ensures { BytesPut out.old at (run_bytes (record { first = get_or log.now 0 0 / 2 ^ 32; olds = olds (map unpack log.now) })) out.new result }
{
    let first = (log[0] / 4294967296) as u32;
    let p = put_olds(out, at, log);
    let q = put_number(out, p, first);
    put_number(out, q, log.len() as u32)
}

// Whether an entry stands at the address after another's.
fn follows(a: &u64, b: &u64) -> bool
    ensures { result ≡ follows a.now b.now }
{
    *b / 4294967296 == *a / 4294967296 + 1
}

// Writes the runs of a log's entries from i up to n. The part stays i and n beside the log: the public promise speaks of between i n.
pub fn put_runs(out: &mut [u8], at: usize, log: &[u64], i: usize, n: usize) -> Put
    requires { (i ≤ n) × (n ≤ length log.now) × (n ≤ byte_limit) × (at + length (runs_bytes (runs (between i n log.now))) ≤ length out.old) }
    ensures { PartPut out.old at (runs_bytes (runs (between i n log.now))) (length (runs (between i n log.now))) out.new result }
{
    let mut p = at;
    let mut count: u32 = 0;
    for run in log[i..n].chunk_by(follows) {
        p = put_run(out, p, run);
        count += 1;
    }
    Put { at: p, count }
}
