// lib.rt - where the records of a run's full journal begin, so that they need not be read again at each step. Crate held makes room by it.
// Means: specs/Starts.antt.  Laws: StartLaws, SkipLaws, WrapLaws, PostLaws, NearLaws of proofs/.
// Uses: oldest, turned, undo, record, numbers.  Source: [K5], [ours].
#![tactic(auto)]

pub mod near;
pub mod posts;

// Entries that a run's table of posts has, and its list of the starts of the oldest records: with a spread of a POSTS-th of the journal and
// LONGEST_RECORD more, no entry that is still needed is overwritten, and hardly one has no start.
pub const POSTS: usize = 1024;

pub const NEAR: usize = 512;
