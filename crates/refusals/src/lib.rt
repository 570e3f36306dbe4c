// lib.rt - why a call is refused, in words, and the number that stands for it in a call's answer.
// Means: specs/Refusals.antt.
// Uses: nothing.  Source: [01 Calls, table], [K5], [K7], [K8], [K10].
#![tactic(auto)]

ghost use Rattle.std.specs.Prelude.{◌≡◌};
ghost use Rattle.refusals.specs.Refusals.{refusal_number};

#[derive(Clone, Copy, PartialEq, Eq)]
pub enum Refusal {
    // memory's length is odd, too short or too long
    Memory = 1,

    // SR has a bit that it may not have, or mode is none of the three
    State = 2,

    // level, budget or count is too high
    TooHigh = 3,

    // the mark is past the journal's end
    Mark = 4,

    // the journal has no room for one more record
    NoRoom = 5,

    // the machine is halted
    Halted = 6,

    // the mark is 0: nothing is left to undo
    NothingToUndo = 7,

    // a record is not well formed
    Torn = 8,

    // the block is not 80 bytes long
    Block = 9,

    // the window's ends are not in their order, or one is too high
    Window = 10,

    // the target is shorter than the other form of the journal
    ShortTarget = 11,

    // the ROM's length is odd or too long, or memory reaches past its start
    Rom = 12,

    // neither memory nor the ROM holds the part
    NoPart = 13,
}

// The numbers are C's (enum ibz_number): a call's answer has a number, and 0 where it was done.
impl From<Refusal> for u32 {
    ghost from_gives = { λ refusal n. n ≡ refusal_number refusal };

    fn from(refusal: Refusal) -> u32 {
        refusal as u32
    }
}
