// lib.rt - cases: reads lines that list slots and bytes, puts what they list, takes a step and its undo, compares, and counts.
// Means: of trying, that what agrees is equal; else nothing, proved safe.
// Uses: codes, machine, compare.  Source: [ours], crates/vectors/README.md.
#![tactic(auto)]

pub mod fields;
pub mod lines;
pub mod setting;
pub mod suite;
pub mod tally;
pub mod text;
pub mod trying;
