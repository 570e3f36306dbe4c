// lib.rt - compares bytes with bytes, and slots with slots; in verdicts, a case with what is wanted of it. What agrees is proved here.
// Means: specs/Same.antt.
// Uses: codes.  Source: [ours].
#![tactic(auto)]

pub mod verdicts;

ghost use Rattle.compare.specs.Same.{TellsSame};

use codes::SLOTS;

// Whether lengths and all bytes are equal.
pub fn same(a: &[u8], b: &[u8]) -> bool
    ensures { TellsSame result a.now b.now }
{
    a == b
}

// Whether all slots are equal.
pub fn same_slots(s: &[u32; SLOTS], t: &[u32; SLOTS]) -> bool
    ensures { TellsSame result s.now t.now }
{
    s == t
}
