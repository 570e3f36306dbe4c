// lib.rt - no code: the crate holds 01's examples marked P, and worked examples of clocks, odd jumps and the window: for each a table, one statement.
// Means: specs/Paper.antt, ClockRows, OddRows, WindowRows.  Theorems: examples_hold, clock_rows_hold, odd_rows_hold, window_rows_hold of proofs/.
// Uses: numbers, record, decimal, multiply_divide, exception, step.  Source: [01 Set down and proved], [003 D], [K2], [K3], [K7].
#![tactic(auto)]
