// lib.rt - nothing to run: the theorems on a fenced contributor, over the definitions of a step and of its call.
// Means: specs/Fence.antt, specs/Rows.antt.  Laws: proofs/FenceLaws.antt and what it stands on.
// Uses: step, calls.  Source: [K7].
#![tactic(auto)]
