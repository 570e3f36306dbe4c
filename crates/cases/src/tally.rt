// tally.rt - what a case is found to be, and how many agree, differ and are skipped.
// Means: nothing; proved safe.
// Uses: nothing.  Source: [ours].
use std::fmt;

// A case that differs has a difference.
#[derive(Clone, Copy, PartialEq, Eq)]
pub enum Finding<D> {
    Agrees,
    Skipped,
    Differs(D),
}

impl<D> From<Result<(), D>> for Finding<D> {
    fn from(verdict: Result<(), D>) -> Finding<D> {
        match verdict {
            Ok(()) => Finding::Agrees,
            Err(difference) => Finding::Differs(difference),
        }
    }
}

#[derive(Clone, Copy, Default)]
pub struct Tally {
    pub agree: u64,
    pub differ: u64,
    pub skipped: u64,
}

impl Tally {
    // Counts one case more.
    pub(crate) fn count<D>(&mut self, found: &Finding<D>) {
        let n = match found {
            Finding::Agrees => &mut self.agree,
            Finding::Skipped => &mut self.skipped,
            Finding::Differs(_) => &mut self.differ,
        };
        *n = n.wrapping_add(1);
    }
}

impl fmt::Display for Tally {
    fn fmt<W: fmt::Write>(&self, f: &mut fmt::Formatter<W>) -> fmt::Result {
        let agree = self.agree;
        let differ = self.differ;
        let skipped = self.skipped;
        write!(f, "agree {agree}, differ {differ}, skipped {skipped}")
    }
}
