// lib.rt - a record of the journal's form 2: changed bytes at neighbouring addresses stand in it as runs.
// Means: specs/Runs.antt, specs/Two.antt.  Laws: proofs/RunLaws, ReadRunLaws, TwoLaws, LongestLaws, StepLaws, PutLaws.
// Uses: undo, record, numbers, codes.  Source: [K8].
#![tactic(auto)]

pub mod put;
pub mod read;

// Where a run that was read starts in the journal, the entry of its first byte, and its first address.
#[derive(Clone, Copy)]
pub struct OneRun {
    pub start: usize,
    pub at: usize,
    pub first: usize,
}

// Where runs that were read start in the journal, and the entry of their first byte.
#[derive(Clone, Copy)]
pub struct AllRuns {
    pub start: usize,
    pub at: usize,
}

// A record that was read into two logs: the count of its slots, its bytes' first entry and the one after the last, and where it starts.
#[derive(Clone, Copy)]
pub struct Logged {
    pub slots: usize,
    pub from: usize,
    pub to: usize,
    pub start: usize,
}
