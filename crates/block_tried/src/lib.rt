// lib.rt - K7's third theorem for a C program: after any ibz_try, ibz_take_back leaves the bytes of before. No code.
// Means: specs/BlockTried.antt. The theorem: proofs/BlockTriedLaws.antt.
// Uses: bus, calls, block, block_calls, tries, fence, tried.  Source: [K1], [K7].
#![tactic(auto)]
