// What the library answered, and what it left.
use program_tools::made;
use program_tools::show::Refused;
use reason::Reason;
use std::fmt;

// What a piece or a join was answered: the count of newly held positions, or the reason.
#[derive(Clone, Copy, Debug, PartialEq, Eq)]
pub(crate) struct Added(pub(crate) Result<u32, Reason>);

impl fmt::Display for Added {
    fn fmt<W: fmt::Write>(&self, f: &mut fmt::Formatter<W>) -> fmt::Result {
        match self.0 {
            Ok(new) => write!(f, "new {new}"),
            Err(reason) => write!(f, "{}", Refused(reason)),
        }
    }
}

// A map and a buffer, shown by the sums of all their lent bytes.
#[derive(Clone, Copy, Debug, PartialEq, Eq)]
pub(crate) struct Sums<'a> {
    pub(crate) map: &'a [u8],
    pub(crate) buffer: &'a [u8],
}

impl fmt::Display for Sums<'_> {
    fn fmt<W: fmt::Write>(&self, f: &mut fmt::Formatter<W>) -> fmt::Result {
        let map = made::sum(self.map);
        let buffer = made::sum(self.buffer);
        write!(f, "map {map} buffer {buffer}")
    }
}
