// Joining a second reception into a first, and the rest of a line about it; and every pattern of the
// first joined with every pattern of the second, of which some have a byte that differs. A second of the
// same pattern has the same rubbish too: it is the first itself.
use crate::answers::{Added, Sums};
use crate::patterns::Pattern;
use crate::spaces::{BUFFER, Lent, MAP};
use crate::{patterns, spaces};
use program_tools::made;
use reception::{File, Reception};
use std::io;

// A reception of a join: its file, its pattern, whether its spare bits are set, and the space that is lent for it.
#[derive(Clone, Copy, Debug, PartialEq, Eq)]
pub(crate) struct Side {
    pub(crate) file: File,
    pub(crate) pattern: Pattern,
    pub(crate) set: bool,
    pub(crate) lent: Lent,
}

impl Side {
    // Its map in a space, made for a length.
    fn map(self, space: &mut [u8], made: u32) -> &mut [u8] {
        patterns::map(space, self.lent.map, made, self.pattern, self.set)
    }

    // Its buffer in a space, made for a length.
    fn buffer(self, space: &mut [u8], made: u32) -> &mut [u8] {
        patterns::buffer(space, self.lent.buffer, made, self.pattern)
    }
}

// A join: the two receptions, the length for which both are made, and the bits that are turned over in the byte at
// a position of the first.
#[derive(Clone, Copy, Debug, PartialEq, Eq)]
pub(crate) struct Join {
    pub(crate) first: Side,
    pub(crate) second: Side,
    pub(crate) made: u32,
    pub(crate) at: usize,
    pub(crate) bits: u8,
}

impl Join {
    // The rest of a line: both receptions are made, and the second is joined into the first.
    pub(crate) fn answer(self, rt: &impl Print) -> io::Result<()> {
        let mut map = [0; MAP];
        let mut buffer = [0; BUFFER];
        let map = self.first.map(&mut map, self.made);
        let buffer = self.first.buffer(&mut buffer, self.made);
        made::turn(buffer, self.at, self.bits);
        let mut other_map = [0; MAP];
        let mut other_buffer = [0; BUFFER];
        let second = Reception {
            file: self.second.file,
            map: self.second.map(&mut other_map, self.made),
            buffer: self.second.buffer(&mut other_buffer, self.made),
        };
        let added = Added(reception::join(self.first.file, map, buffer, second));
        println!(rt; ": {added}, {}", Sums { map, buffer })
    }
}

// The lines of seven lengths.
pub(crate) fn all(rt: &impl Print) -> io::Result<()> {
    for (row, length) in (0..).zip(&spaces::LENGTHS[1..8]) {
        each(rt, row, *length)?;
    }
    Ok(())
}

// The lines of a length, which stands in a row of the list, with one of seven patterns for each reception.
fn each(rt: &impl Print, row: u8, length: u32) -> io::Result<()> {
    for first in &Pattern::ALL[..7] {
        for second in &Pattern::ALL[..7] {
            let c = u64::from(row) * 49 + *first as u64 * 7 + *second as u64;
            joined(rt, drawn(c, length, *first, *second))?;
        }
    }
    Ok(())
}

// The join of two patterns, drawn from a number: one in five has a byte of the first that differs, and the spare
// bits of each reception are set in turn.
fn drawn(c: u64, length: u32, first: Pattern, second: Pattern) -> Join {
    let file = File { number: 7, length };
    Join {
        first: Side {
            file,
            pattern: first,
            set: c % 2 == 1,
            lent: spaces::space(length, 3, 3),
        },
        second: Side {
            file,
            pattern: second,
            set: c / 2 % 2 == 1,
            lent: spaces::space(length, 4, 4),
        },
        made: length,
        at: spaces::below(c, length) as usize,
        bits: if c % 5 == 0 { 0x20 } else { 0 },
    }
}

// The line of a join.
fn joined(rt: &impl Print, j: Join) -> io::Result<()> {
    let spare = match (j.first.set, j.second.set) {
        (false, false) => "clear",
        (true, false) => "of the first set",
        (false, true) => "of the second set",
        (true, true) => "set",
    };
    print!(rt;
        "join {} {} with {}",
        j.made, j.first.pattern, j.second.pattern
    )?;
    print!(rt; ", spare bits {spare}, turned over {} at {}", j.bits, j.at)?;
    j.answer(rt)
}
