// Taking a piece in with every fault planted alone and with every pair of faults: the first in the
// order 7, 12, 9, 10, 11 is answered, and no lent byte changes. Held are the positions from 8 to 19,
// and the piece is that of the four positions from 16 on.
use crate::patterns::Pattern;
use crate::spaces::{BUFFER, MAP};
use crate::takes::Take;
use crate::{patterns, spaces};
use program_tools::planted::Planted;
use std::{fmt, io};

// The faults, in the order of their reasons.
#[derive(Clone, Copy, Debug, PartialEq, Eq, PartialOrd, Ord)]
enum Fault {
    NoLength,
    Long,
    ShortMap,
    ShortBuffer,
    Number,
    Beyond,
    Byte,
    Nothing,
}

impl Fault {
    const ALL: [Fault; 8] = [
        Fault::NoLength,
        Fault::Long,
        Fault::ShortMap,
        Fault::ShortBuffer,
        Fault::Number,
        Fault::Beyond,
        Fault::Byte,
        Fault::Nothing,
    ];
}

impl fmt::Display for Fault {
    fn fmt<W: fmt::Write>(&self, f: &mut fmt::Formatter<W>) -> fmt::Result {
        f.write_str(match self {
            Fault::NoLength => "length 0",
            Fault::Long => "length 32769",
            Fault::ShortMap => "short map",
            Fault::ShortBuffer => "short buffer",
            Fault::Number => "other number",
            Fault::Beyond => "end beyond",
            Fault::Byte => "other byte",
            Fault::Nothing => "no fault",
        })
    }
}

// A line for each fault, for each pair of faults, and for none. Of a length that would be 0 and 32,769 there is none.
pub(crate) fn all(rt: &impl Print) -> io::Result<()> {
    for first in Fault::ALL {
        for second in Fault::ALL {
            let two_lengths = first == Fault::NoLength && second == Fault::Long;
            let f = Planted { first, second };
            if spaces::in_order(f, Fault::Nothing) && !two_lengths {
                print!(rt; "take with {f}")?;
                taken(rt, f)?;
            }
        }
    }
    Ok(())
}

// The rest of a line: the reception is made in a lent space, and takes the piece.
fn taken(rt: &impl Print, f: Planted<Fault>) -> io::Result<()> {
    let length = spaces::wrong_length(f, Fault::NoLength, Fault::Long, 20);
    let lent = spaces::exact(f, length, Fault::ShortMap, Fault::ShortBuffer);
    let mut map = [0; MAP];
    let mut buffer = [0; BUFFER];
    let map = patterns::map(&mut map, lent.map, 20, Pattern::High, false);
    let buffer = patterns::buffer(&mut buffer, lent.buffer, 20, Pattern::High);
    piece(f, length).answer(rt, map, buffer)
}

// The piece: a fifth byte ends beyond the length, and the fourth differs. Beyond the length 32,769 it starts at 32,765.
fn piece(f: Planted<Fault>, length: u32) -> Take {
    Take {
        length,
        number: f.choice(Fault::Number, 7, 8),
        size: f.choice(Fault::Beyond, 4, 5),
        at: 3,
        bits: u8::from(f.has(Fault::Byte)),
        offset: f.choice(Fault::Long, 16, f.choice(Fault::Beyond, 16, 32765)),
    }
}
