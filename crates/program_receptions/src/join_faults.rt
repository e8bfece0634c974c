// Joining with every fault planted alone and with every pair of faults: the first in the order 7, 12, 9,
// 11 is answered, and no lent byte of either reception changes. The first holds the positions below 12,
// the second those from 8 to 19, so that 11 is the last that both hold.
use crate::joins::{Join, Side};
use crate::patterns::Pattern;
use crate::spaces;
use program_tools::planted::Planted;
use reception::File;
use std::{fmt, io};

// The faults, in the order of their reasons.
#[derive(Clone, Copy, Debug, PartialEq, Eq, PartialOrd, Ord)]
enum Fault {
    FirstNoLength,
    FirstLong,
    SecondNoLength,
    SecondLong,
    FirstMap,
    FirstBuffer,
    SecondMap,
    SecondBuffer,
    Number,
    Length,
    Byte,
    Nothing,
}

impl Fault {
    const ALL: [Fault; 12] = [
        Fault::FirstNoLength,
        Fault::FirstLong,
        Fault::SecondNoLength,
        Fault::SecondLong,
        Fault::FirstMap,
        Fault::FirstBuffer,
        Fault::SecondMap,
        Fault::SecondBuffer,
        Fault::Number,
        Fault::Length,
        Fault::Byte,
        Fault::Nothing,
    ];
}

impl fmt::Display for Fault {
    fn fmt<W: fmt::Write>(&self, f: &mut fmt::Formatter<W>) -> fmt::Result {
        f.write_str(match self {
            Fault::FirstNoLength => "first length 0",
            Fault::FirstLong => "first length 32769",
            Fault::SecondNoLength => "second length 0",
            Fault::SecondLong => "second length 32769",
            Fault::FirstMap => "first map short",
            Fault::FirstBuffer => "first buffer short",
            Fault::SecondMap => "second map short",
            Fault::SecondBuffer => "second buffer short",
            Fault::Number => "other number",
            Fault::Length => "other length",
            Fault::Byte => "other byte",
            Fault::Nothing => "no fault",
        })
    }
}

// A line for each fault, for each pair of faults, and for none. Of a length that would be 0 and 32,769 there is none.
pub(crate) fn all(rt: &impl Print) -> io::Result<()> {
    for first in Fault::ALL {
        for second in Fault::ALL {
            let f = Planted { first, second };
            if spaces::in_order(f, Fault::Nothing) && !two_lengths(f) {
                print!(rt; "join with {f}")?;
                join(f).answer(rt)?;
            }
        }
    }
    Ok(())
}

// Whether two faults give one reception two lengths.
fn two_lengths(f: Planted<Fault>) -> bool {
    matches!(
        (f.first, f.second),
        (Fault::FirstNoLength, Fault::FirstLong) | (Fault::SecondNoLength, Fault::SecondLong)
    )
}

// The join with faults. The second reception has length 20, 21, or a wrong one.
fn join(f: Planted<Fault>) -> Join {
    let right = f.choice(Fault::Length, 20, 21);
    let length = spaces::wrong_length(f, Fault::FirstNoLength, Fault::FirstLong, 20);
    let other = spaces::wrong_length(f, Fault::SecondNoLength, Fault::SecondLong, right);
    Join {
        first: Side {
            file: File { number: 7, length },
            pattern: Pattern::Low,
            set: false,
            lent: spaces::exact(f, length, Fault::FirstMap, Fault::FirstBuffer),
        },
        second: Side {
            file: File {
                number: f.choice(Fault::Number, 7, 8),
                length: other,
            },
            pattern: Pattern::High,
            set: false,
            lent: spaces::exact(f, other, Fault::SecondMap, Fault::SecondBuffer),
        },
        made: 20,
        at: 11,
        bits: u8::from(f.has(Fault::Byte)),
    }
}
