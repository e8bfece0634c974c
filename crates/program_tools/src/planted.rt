// Faults that are planted in one call or frame: two of a kind, or one of them alone.
ghost use Rattle.std.specs.Prelude.{◌≡◌};
ghost use Rattle.program_tools.specs.Planted.{is_among, chosen};
ghost use Rattle.program_tools.specs.Show.{names_of};

use std::fmt;

// Two faults, or one that stands twice.
#[derive(Clone, Copy, Debug, PartialEq, Eq)]
pub struct Planted<F> {
    pub first: F,
    pub second: F,
}

impl<F: Copy + PartialEq> Planted<F> {
    // Whether a fault is one of the two.
    pub fn has(self, fault: F) -> bool
        ensures { result ≡ is_among F.eq self fault }
    {
        self.first == fault || self.second == fault
    }

    // The second of two values where a fault is one of the two, else the first.
    pub fn choice<T: Drop>(self, fault: F, right: T, wrong: T) -> T
        ensures { result ≡ chosen F.eq self fault right wrong }
    {
        if self.has(fault) { wrong } else { right }
    }
}

// The name of the one, or of both.
impl<F: Copy + PartialEq + fmt::Display> fmt::Display for Planted<F> {
    ghost output = { λ x. names_of (F.eq x.first x.second) (F.output x.first) (F.output x.second) };

    fn fmt<W: fmt::Write>(&self, f: &mut fmt::Formatter<W>) -> fmt::Result {
        let first = self.first;
        let second = self.second;
        write!(f, "{first}")?;
        if first != second {
            write!(f, " and {second}")?;
        }
        Ok(())
    }
}
