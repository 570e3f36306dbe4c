// lib.rt - nothing to run: the theorems on the pattern tryer, over the definitions of a try and of taking it back.
// Means: specs/Tried.antt.  Laws: proofs/TriedLaws.antt and what it stands on.
// Uses: fence, tries.  Source: [K7].
#![tactic(auto)]
