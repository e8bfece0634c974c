// Opening: lengths on both sides of every limit, each with a map and a buffer that are short by one,
// exact, and longer by five, full of rubbish; and the sequence of pieces where both are exact or both are
// longer.
use crate::answers::Sums;
use crate::patterns::Pattern;
use crate::sequences::Sequence;
use crate::spaces::{BUFFER, Lent, MAP};
use crate::{patterns, spaces};
use program_tools::show::Refused;
use std::io;

// How large a space is: short by one, exact, or longer by five.
#[derive(Clone, Copy, Debug, PartialEq, Eq)]
enum Size {
    Short = 0,
    Exact = 1,
    Longer = 6,
}

impl Size {
    const ALL: [Size; 3] = [Size::Short, Size::Exact, Size::Longer];

    // How many bytes more than short by one it has.
    fn more(self) -> u8 {
        self as u8
    }
}

// The lines of every length.
pub(crate) fn all(rt: &impl Print) -> io::Result<()> {
    for (row, length) in (0..).zip(spaces::LENGTHS) {
        each(rt, row, length)?;
    }
    Ok(())
}

// The lines of a length, which stands in a row of the list, with every size of the spaces.
fn each(rt: &impl Print, row: u8, length: u32) -> io::Result<()> {
    for map in Size::ALL {
        for buffer in Size::ALL {
            let lent = spaces::space(length % 33000, map.more(), buffer.more());
            opened(rt, length, lent, sequence(row, map, buffer))?;
        }
    }
    Ok(())
}

// The sequence of pieces for two sizes, where there is one. The spare bits are clear in exact space and set in
// longer space, or the other way round, in turn from length to length.
fn sequence(row: u8, map: Size, buffer: Size) -> Option<Sequence> {
    match (map, buffer) {
        (Size::Exact, Size::Exact) => Some(Sequence {
            seed: u16::from(row) * 126 + 56,
            set: row % 2 == 1,
        }),
        (Size::Longer, Size::Longer) => Some(Sequence {
            seed: u16::from(row) * 126 + 112,
            set: row % 2 == 0,
        }),
        _ => None,
    }
}

// The lines of a length with so many bytes of map and buffer: the answer, and the sequence of pieces.
fn opened(rt: &impl Print, length: u32, lent: Lent, sequence: Option<Sequence>) -> io::Result<()> {
    let mut map = [0; MAP];
    let mut buffer = [0; BUFFER];
    let map = patterns::rubbish(&mut map, lent.map, Pattern::Nothing);
    let buffer = patterns::rubbish(&mut buffer, lent.buffer, Pattern::Nothing);
    print!(rt;
        "open {length} with map of {} and buffer of {}",
        lent.map, lent.buffer
    )?;
    match reception::open(length, map, buffer) {
        Ok(()) => print!(rt; ": opened")?,
        Err(reason) => print!(rt; ": {}", Refused(reason))?,
    }
    println!(rt; ", {}", Sums { map, buffer })?;
    match sequence {
        Some(sequence) => sequence.taken(rt, length, map, buffer),
        None => Ok(()),
    }
}
