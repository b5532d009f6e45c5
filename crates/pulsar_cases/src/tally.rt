//! Counts of cases.

use std::fmt;

/// How many cases there are, and how many of them differ.
#[derive(Clone, Copy, Default)]
pub struct Tally {
    pub cases: u64,
    pub differ: u64,
}

impl Tally {
    /// One case, which is as it should be or not.
    pub fn one(is_right: bool) -> Tally {
        Tally {
            cases: 1,
            differ: u64::from(!is_right),
        }
    }

    pub fn add(&mut self, other: Tally) {
        self.cases = self.cases.saturating_add(other.cases);
        self.differ = self.differ.saturating_add(other.differ);
    }
}

impl fmt::Display for Tally {
    fn fmt<W: fmt::Write>(&self, f: &mut fmt::Formatter<W>) -> fmt::Result {
        let cases = self.cases;
        let differ = self.differ;
        write!(f, "{cases} cases, {differ} differ")
    }
}
