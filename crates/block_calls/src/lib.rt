// lib.rt - the calls on a block of 80 bytes: what they are, which refusals they give and what is proved of them. The code is ibezofanle's.
// Means: specs/. The theorems: proofs/.
// Uses: bits, record, calls, block.  Source: [K1], [K2], [K7].
#![tactic(auto)]
