// How lines show what is not text: bytes in hexadecimal, and what the library answered.
ghost use Rattle.std.specs.Prelude.{Some};
ghost use Rattle.program_tools.specs.Show.{refusal_text, answer_text, hex_text};

use reason::Reason;
use std::fmt;

// Bytes in hexadecimal, a space before each.
#[derive(Clone, Copy, Debug, PartialEq, Eq)]
pub struct Hex<'a>(pub &'a [u8]);

impl fmt::Display for Hex<'_> {
    ghost output = { λ x. Some (hex_text x.0.now) };

    fn fmt<W: fmt::Write>(&self, f: &mut fmt::Formatter<W>) -> fmt::Result {
        for &byte in self.0 {
            write!(f, " {byte:02X}")?;
        }
        Ok(())
    }
}

// A refusal: "refused" and the number of its reason.
#[derive(Clone, Copy, Debug, PartialEq, Eq)]
pub struct Refused(pub Reason);

impl fmt::Display for Refused {
    ghost output = { λ x. Some (refusal_text x.0) };

    fn fmt<W: fmt::Write>(&self, f: &mut fmt::Formatter<W>) -> fmt::Result {
        write!(f, "refused {}", u8::from(self.0))
    }
}

// What something was answered: "accepted", or the refusal.
#[derive(Clone, Copy, Debug, PartialEq, Eq)]
pub struct Answer<T>(pub Result<T, Reason>);

impl<T: Drop> fmt::Display for Answer<T> {
    ghost output = { λ x. Some (answer_text x.0) };

    fn fmt<W: fmt::Write>(&self, f: &mut fmt::Formatter<W>) -> fmt::Result {
        match &self.0 {
            Ok(_) => write!(f, "accepted"),
            Err(reason) => write!(f, "{}", Refused(*reason)),
        }
    }
}
