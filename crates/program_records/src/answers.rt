// What the lines show: bytes, and what the library answered.
use program_tools::made;
use program_tools::show::{Hex, Refused};
use reason::Reason;
use reception::File;
use std::fmt;

// Bytes: up to 43 in hexadecimal, more as their sum.
#[derive(Clone, Copy, Debug, PartialEq, Eq)]
pub(crate) struct Bytes<'a>(pub(crate) &'a [u8]);

impl fmt::Display for Bytes<'_> {
    fn fmt<W: fmt::Write>(&self, f: &mut fmt::Formatter<W>) -> fmt::Result {
        let bytes = self.0;
        if bytes.len() > 43 {
            write!(f, " sum {}", made::sum(bytes))
        } else {
            write!(f, "{}", Hex(bytes))
        }
    }
}

// What reading or loading a record answered: the number and the length of its file, or the reason.
#[derive(Clone, Copy, Debug, PartialEq, Eq)]
pub(crate) struct Said(pub(crate) Result<File, Reason>);

impl fmt::Display for Said {
    fn fmt<W: fmt::Write>(&self, f: &mut fmt::Formatter<W>) -> fmt::Result {
        match self.0 {
            Ok(file) => write!(f, "accepted {} {}", file.number, file.length),
            Err(reason) => write!(f, "{}", Refused(reason)),
        }
    }
}
