// lib.rt - the types of the calls' answers, what a refused call answers, and the manners of a step and a run. What the calls are stands in specs/,
// the theorems about them in proofs/; the code is in the crates answers (all of a call that takes no step), keeping and machine.
// Means: specs/Calls.antt.  Uses: codes, refusals.  Source: [01 Calls and what they give back], [K2], [K5], [K7].
#![tactic(auto)]

ghost use Rattle.std.specs.Prelude.{◌≡◌};
ghost use Rattle.codes.specs.Codes.{NoEvent};
ghost use Rattle.refusals.specs.Refusals.{refusal_number};

use refusals::Refusal;

// What a step or a run does where the journal is full: it drops the fewest oldest records that make room, or it keeps them all and ends.
#[derive(Clone, Copy)]
pub enum Manner {
    Dropping,
    Keeping,
}

// The answers are C's structs: the calls from C (crate ibezofanle) hand them on, and c/ibezofanle.h declares them. New members go to
// the end. C has no Result: so each has the refusal's number as a member.

// A reset's answer: the refusal's number or 0, and the window then: from lo to below hi, all of memory; 0 and 0 where it is refused.
#[repr(C)]
#[derive(Clone, Copy)]
pub struct ResetAnswer {
    pub number: u32,
    pub lo: u32,
    pub hi: u32,
}

impl ResetAnswer {
    pub fn refused(refusal: Refusal) -> ResetAnswer
        ensures { result ≡ record { number = refusal_number refusal; lo = 0; hi = 0 } }
    {
        ResetAnswer {
            number: u32::from(refusal),
            lo: 0,
            hi: 0,
        }
    }
}

// A step's answer: the refusal's number or 0; the event: 0 nothing, 1 more than the vector that was taken first, 257 a halt; the mark;
// the clocks that the step took; the bytes of the journal that were moved and the records that were dropped to make room. Where it is
// refused these three are 0.
#[repr(C)]
#[derive(Clone, Copy)]
pub struct StepAnswer {
    pub number: u32,
    pub event: u32,
    pub mark: usize,
    pub clocks: u32,
    pub moved: usize,
    pub dropped: usize,
}

impl StepAnswer {
    pub fn refused(refusal: Refusal, mark: usize) -> StepAnswer
        ensures { result ≡ record { number = refusal_number refusal; event = NoEvent; mark = mark; clocks = 0; moved = 0; dropped = 0 } }
    {
        StepAnswer {
            number: u32::from(refusal),
            event: codes::NO_EVENT,
            mark,
            clocks: 0,
            moved: 0,
            dropped: 0,
        }
    }
}

// A run's answer: the refusal's number or 0, the reason why it ended, the mark, the number of steps done, and the sums of their clocks,
// of the bytes moved (at most the largest number of 64 bits) and of the records dropped.
#[repr(C)]
#[derive(Clone, Copy)]
pub struct RunAnswer {
    pub number: u32,
    pub reason: u32,
    pub mark: usize,
    pub steps: u32,
    pub clocks: u32,
    pub moved: u64,
    pub dropped: u64,
}

impl RunAnswer {
    pub fn refused(refusal: Refusal, mark: usize) -> RunAnswer
        ensures { result ≡ record { number = refusal_number refusal; reason = 0; mark = mark; steps = 0; clocks = 0; moved = 0; dropped = 0 } }
    {
        RunAnswer {
            number: u32::from(refusal),
            reason: 0,
            mark,
            steps: 0,
            clocks: 0,
            moved: 0,
            dropped: 0,
        }
    }
}

// An undo's answer: the refusal's number or 0, and the mark.
#[repr(C)]
#[derive(Clone, Copy)]
pub struct UndoAnswer {
    pub number: u32,
    pub mark: usize,
}

impl UndoAnswer {
    pub fn refused(refusal: Refusal, mark: usize) -> UndoAnswer
        ensures { result ≡ record { number = refusal_number refusal; mark = mark } }
    {
        UndoAnswer {
            number: u32::from(refusal),
            mark,
        }
    }
}
