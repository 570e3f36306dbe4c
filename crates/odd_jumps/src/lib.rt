// lib.rt - no code: the crate holds what K3 says of a step, as a theorem about the definition.
// Means: specs/OddJumps.antt.  Theorem: odd-jumps of proofs/OddJumpLaws.antt.
// Uses: plan, control, system, bank, exception, clocks, execute, step.  Source: [003 4.4.10], [K3].
#![tactic(auto)]
