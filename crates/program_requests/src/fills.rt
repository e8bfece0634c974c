// Requests for holes and for the start, written: the worked request from every place, by the length of the
// file and the size of its map, and with every fault planted alone and every pair of faults: the first in
// the order 2, 7, 12 (map), 15, 12 (target) is answered, of a request for the start in the order 2, 12, and
// no byte of the target changes.
use crate::bases;
use ax25::{Address, Head};
use program_tools::made;
use program_tools::planted::Planted;
use program_tools::show::Refused;
use reason::Reason;
use request::Written;
use std::{fmt, io};

// Lengths of a file and sizes of its map: on both sides of every limit, and far beyond.
const LENGTHS: [(u32, usize); 10] = [
    (0, 0),
    (1, 0),
    (1, 1),
    (8, 1),
    (9, 1),
    (9, 2),
    (32768, 4095),
    (32768, 4096),
    (32769, 4097),
    (u32::MAX, 4200),
];

// The faults of the writers, in the order of their reasons, and none. The first six are those of the addresses: in the
// destination a small letter, in the source a space inside.
#[derive(Clone, Copy, Debug, PartialEq, Eq, PartialOrd, Ord)]
enum Fault {
    ToName,
    ToNumber,
    ToBit,
    FromName,
    FromNumber,
    FromBit,
    NoLength,
    Long,
    ShortMap,
    Complete,
    Beyond,
    ShortTarget,
    Nothing,
}

impl Fault {
    const ALL: [Fault; 13] = [
        Fault::ToName,
        Fault::ToNumber,
        Fault::ToBit,
        Fault::FromName,
        Fault::FromNumber,
        Fault::FromBit,
        Fault::NoLength,
        Fault::Long,
        Fault::ShortMap,
        Fault::Complete,
        Fault::Beyond,
        Fault::ShortTarget,
        Fault::Nothing,
    ];

    // Whether a request for the start can have it: that has no length, no map and no place.
    fn is_of_start(self) -> bool {
        self < Fault::NoLength || self > Fault::Beyond
    }
}

impl fmt::Display for Fault {
    fn fmt<W: fmt::Write>(&self, f: &mut fmt::Formatter<W>) -> fmt::Result {
        f.write_str(match self {
            Fault::ToName => "destination in lower case",
            Fault::ToNumber => "destination number 16",
            Fault::ToBit => "destination bit 2",
            Fault::FromName => "space inside the source",
            Fault::FromNumber => "source number 16",
            Fault::FromBit => "source bit 2",
            Fault::NoLength => "length 0",
            Fault::Long => "length 32769",
            Fault::ShortMap => "short map",
            Fault::Complete => "complete map",
            Fault::Beyond => "place beyond",
            Fault::ShortTarget => "target short by one",
            Fault::Nothing => "no fault",
        })
    }
}

// The lines of the worked request, with spare bits set in its map, from 23 places and from one far beyond.
pub(crate) fn places(rt: &impl Print) -> io::Result<()> {
    let map = bases::map([0x0F, 0x03, 0xF0]);
    for place in (0..23).chain([u32::MAX]) {
        print!(rt; "third map byte 240, from {place}")?;
        let mut target = bases::TARGET;
        let filled = request::write_fill(bases::HEAD, bases::file(20), &map, place, &mut target);
        end(rt, filled, &target)?;
    }
    Ok(())
}

// The lines of lengths and sizes of a map, which holds the odd positions.
pub(crate) fn lengths(rt: &impl Print) -> io::Result<()> {
    let map = bases::map(bases::ODD);
    for (length, size) in LENGTHS {
        print!(rt; "length {length} with map of {size}")?;
        let map = made::first(&map, size);
        let mut target = bases::TARGET;
        let filled = request::write_fill(bases::HEAD, bases::file(length), map, 0, &mut target);
        end(rt, filled, &target)?;
    }
    Ok(())
}

// The lines of each of the 12 faults with each other, and none.
// Kept beside that of `damages`: one function for both would take the faults, the test and the line, and be called in as many lines.
pub(crate) fn faults(rt: &impl Print) -> io::Result<()> {
    for first in Fault::ALL {
        for second in Fault::ALL {
            let f = Planted { first, second };
            if possible(f) {
                asked(rt, f)?;
            }
        }
    }
    Ok(())
}

// Whether both can stand in one request: a fault and one that comes later, but none with no fault, and no length that
// would be 0 and 32,769.
fn possible(f: Planted<Fault>) -> bool {
    let Planted { first, second } = f;
    first == second
        || first < second
            && second != Fault::Nothing
            && !(first == Fault::NoLength && second == Fault::Long)
}

// The line of a request for holes with faults, and that of one for the start where it can have them too.
fn asked(rt: &impl Print, f: Planted<Fault>) -> io::Result<()> {
    print!(rt; "{f}")?;
    filled(rt, f)?;
    if f.first.is_of_start() && f.second.is_of_start() {
        print!(rt; "the same for the start")?;
        started(rt, f)?;
    }
    Ok(())
}

// The rest of a line: a request for holes with faults is written, into a target of its size or one less.
fn filled(rt: &impl Print, f: Planted<Fault>) -> io::Result<()> {
    let length = f.choice(Fault::NoLength, 20, 0);
    let file = bases::file(f.choice(Fault::Long, length, 32769));
    let map = bases::map(f.choice(Fault::Complete, bases::WORKED, [0xFF; 3]));
    let map = made::first(&map, f.choice(Fault::ShortMap, 4200, 2));
    let place = f.choice(Fault::Beyond, 0, 20);
    let mut target = bases::TARGET;
    let lent = made::lent(&mut target, f.choice(Fault::ShortTarget, 33, 32));
    let filled = request::write_fill(head(f), file, map, place, lent);
    end(rt, filled, &target)
}

// The same of a request for the start.
fn started(rt: &impl Print, f: Planted<Fault>) -> io::Result<()> {
    let mut target = bases::TARGET;
    let lent = made::lent(&mut target, f.choice(Fault::ShortTarget, 23, 22));
    let started = request::write_start(head(f), bases::START, lent);
    let sum = made::sum(&target);
    match started {
        Ok(()) => println!(rt; ": written, target {sum}"),
        Err(reason) => println!(rt; ": {}, target {sum}", Refused(reason)),
    }
}

// To whom a request goes and from whom it comes, with their faults.
fn head(f: Planted<Fault>) -> Head {
    let Head {
        destination,
        source,
    } = bases::HEAD;
    Head {
        destination: Address {
            characters: f.choice(Fault::ToName, destination.characters, *b"vA3SFL"),
            number: f.choice(Fault::ToNumber, destination.number, 16),
            bit7: f.choice(Fault::ToBit, destination.bit7, 2),
        },
        source: Address {
            characters: f.choice(Fault::FromName, source.characters, *b"UO AT5"),
            number: f.choice(Fault::FromNumber, source.number, 16),
            bit7: f.choice(Fault::FromBit, source.bit7, 2),
        },
    }
}

// The end of a line: what was answered, and the sum of the target and of what lies behind it.
fn end(rt: &impl Print, filled: Result<Written, Reason>, target: &[u8]) -> io::Result<()> {
    let sum = made::sum(target);
    match filled {
        Ok(Written { count, end }) => println!(rt; ": holes {count}, end {end}, target {sum}"),
        Err(reason) => println!(rt; ": {}, target {sum}", Refused(reason)),
    }
}
