// Sequences of pieces drawn by lot, for every reception that was opened in exact or in longer space: most
// of them right, some of another file, some with a byte that differs, some that end beyond the file, some
// repeated.
use crate::takes::Take;
use crate::{patterns, spaces};
use std::{fmt, io};

// A sequence: the number from which its pieces are drawn, and whether the spare bits are set by hand before it
// or clear, as opening leaves them.
#[derive(Clone, Copy, Debug, PartialEq, Eq)]
pub(crate) struct Sequence {
    pub(crate) seed: u16,
    pub(crate) set: bool,
}

impl Sequence {
    // The lines of the sequence: how the spare bits stand, and each of its pieces.
    pub(crate) fn taken(
        self,
        rt: &impl Print,
        length: u32,
        map: &mut [u8],
        buffer: &mut [u8],
    ) -> io::Result<()> {
        println!(rt; "spare bits {}", if self.set { "set" } else { "clear" })?;
        patterns::spare(map, length, self.set);
        for k in 1..15 {
            let seed = u32::from(self.seed) + k;
            let kind = Kind::drawn(seed);
            let t = piece(seed, kind, length);
            print!(rt; "take {length} at {} bytes {}{kind}", t.offset, t.size)?;
            t.answer(rt, map, buffer)?;
        }
        Ok(())
    }
}

// What a piece is: of another file, with a byte that differs, drawn as the piece before it was, or right.
#[derive(Clone, Copy, Debug, PartialEq, Eq)]
enum Kind {
    OtherFile,
    OtherByte,
    Again,
    Right,
}

impl Kind {
    // A kind drawn by lot: five of eight are right.
    fn drawn(seed: u32) -> Kind {
        match spaces::below(u64::from(seed), 8) {
            0 => Kind::OtherFile,
            1 => Kind::OtherByte,
            2 => Kind::Again,
            _ => Kind::Right,
        }
    }
}

impl fmt::Display for Kind {
    fn fmt<W: fmt::Write>(&self, f: &mut fmt::Formatter<W>) -> fmt::Result {
        f.write_str(match self {
            Kind::OtherFile => " of another file",
            Kind::OtherByte => " with another byte",
            Kind::Again => " again",
            Kind::Right => "",
        })
    }
}

// The piece of a kind: at most a quarter of the file and one byte, and up to two positions beyond its
// end.
fn piece(seed: u32, kind: Kind, length: u32) -> Take {
    let s = u64::from(seed) * 4 + if kind == Kind::Again { 996 } else { 1000 };
    let size = spaces::below(s + 1, length / 4 % 1000 + 2);
    Take {
        length,
        number: if kind == Kind::OtherFile { 8 } else { 7 },
        offset: spaces::below(s + 2, length % 32769 + 2),
        size,
        at: spaces::below(s + 3, size) as usize,
        bits: if kind == Kind::OtherByte { 64 } else { 0 },
    }
}
