// lib.rt - Appendix D: its tables in code, and the two times that stand alone. What the rules are stands in specs/; crate timing has them in code.
// Means: specs/Tables.antt, specs/Clocks.antt, specs/Lines.antt.  The theorems about the printed tables and the largest time stand in proofs/.
// Uses: nothing.  Source: [003 D], [K2].
#![tactic(auto)]

pub mod tables;

// D-14: an interrupt.
pub const INTERRUPT_LINE: u32 = 44;

// A step of a stopped machine that takes no interrupt.
pub const STOPPED_CLOCKS: u32 = 4;
