// The worked request with every fault planted alone, and with every pair of faults that one frame can
// have: the first in the order 1, 2, 3, 4, 7 (over 255), 1 (information), 5, 7, 10 is answered; and with
// holes that keep and break the rules.
use crate::{bases, reads};
use program_tools::made;
use program_tools::planted::Planted;
use std::{fmt, io};

// The faults, in the order in which they are planted.
#[derive(Clone, Copy, Debug, PartialEq, Eq, PartialOrd, Ord)]
enum Fault {
    Short,
    Destination,
    Source,
    Control,
    Protocol,
    Long,
    Information,
    Flags,
    BlockSize,
    NoHole,
    Start,
    OddByte,
    Empty,
    Touching,
    Beyond,
}

impl Fault {
    const ALL: [Fault; 15] = [
        Fault::Short,
        Fault::Destination,
        Fault::Source,
        Fault::Control,
        Fault::Protocol,
        Fault::Long,
        Fault::Information,
        Fault::Flags,
        Fault::BlockSize,
        Fault::NoHole,
        Fault::Start,
        Fault::OddByte,
        Fault::Empty,
        Fault::Touching,
        Fault::Beyond,
    ];

    // Changes the byte of a frame that differs by it, if any: one of the head, the flags, the block size, the first
    // hole's length 0, the second hole's offset 8, and its length 32,778.
    fn plant(self, frame: &mut [u8]) {
        let (at, byte) = match self {
            Fault::Destination => (0, 0xEC),
            Fault::Source => (13, 0x76),
            Fault::Control => (14, 0x13),
            Fault::Protocol => (15, 0xBD),
            Fault::Flags => (16, 0x13),
            Fault::BlockSize => (21, 0xF5),
            Fault::Start => (16, 0x10),
            Fault::Empty => (26, 0x00),
            Fault::Touching => (28, 0x08),
            Fault::Beyond => (32, 0x80),
            Fault::Short | Fault::Long | Fault::Information | Fault::NoHole | Fault::OddByte => {
                return;
            }
        };
        octets::put(frame, at, &[byte]);
    }

    // The size of a frame with it, which has another size without it.
    fn size(self, before: usize) -> usize {
        match self {
            Fault::Short => 15,
            Fault::Long => 273,
            Fault::Information => 22,
            Fault::NoHole => 23,
            Fault::OddByte => before.wrapping_add(1),
            _ => before,
        }
    }
}

impl fmt::Display for Fault {
    fn fmt<W: fmt::Write>(&self, f: &mut fmt::Formatter<W>) -> fmt::Result {
        f.write_str(match self {
            Fault::Short => "15 bytes",
            Fault::Destination => "destination in lower case",
            Fault::Source => "source of a repeater",
            Fault::Control => "control 13",
            Fault::Protocol => "protocol BD",
            Fault::Long => "information of 257",
            Fault::Information => "information of 6",
            Fault::Flags => "flags 13",
            Fault::BlockSize => "block size 245",
            Fault::NoHole => "no hole",
            Fault::Start => "flags 10",
            Fault::OddByte => "odd byte",
            Fault::Empty => "hole of no bytes",
            Fault::Touching => "holes that touch",
            Fault::Beyond => "hole beyond 32768",
        })
    }
}

// The offset and the length of the holes that stand alone, and of those behind (4, 4).
const ALONE: [(u32, u32); 8] = [
    (0, 1),
    (5, 0),
    (32767, 1),
    (32767, 2),
    (32768, 1),
    (0, 32768),
    (0, 32769),
    (65536, 1),
];

const BEHIND: [(u32, u32); 8] = [
    (9, 1),
    (8, 1),
    (4, 4),
    (0, 1),
    (9, 0),
    (9, 32759),
    (9, 32760),
    (65545, 1),
];

// The lines of each fault with each other that can stand in one frame with it.
pub(crate) fn faults(rt: &impl Print) -> io::Result<()> {
    for first in Fault::ALL {
        for second in Fault::ALL {
            let f = Planted { first, second };
            if possible(f) {
                damaged(rt, f)?;
            }
        }
    }
    Ok(())
}

// Whether both can stand in one frame. Where there are 15 bytes, 6 of information or no hole, what lies behind has no
// fault; the information has one length; flags are of one kind, and only those of a list ask for a hole; and a hole of no
// bytes does not touch the next.
fn possible(f: Planted<Fault>) -> bool {
    let Planted { first, second } = f;
    first == second
        || first < second
            && match first {
                Fault::Short => second < Fault::Protocol,
                Fault::Long => second != Fault::Information && second != Fault::NoHole,
                Fault::Information => second == Fault::Flags || second == Fault::BlockSize,
                Fault::Flags => second != Fault::NoHole && second != Fault::Start,
                Fault::NoHole => second == Fault::OddByte,
                Fault::Empty => second != Fault::Touching,
                _ => true,
            }
}

// The line of a frame with faults. A fault that is there is not planted again.
fn damaged(rt: &impl Print, f: Planted<Fault>) -> io::Result<()> {
    let mut frame = bases::request();
    f.first.plant(&mut frame);
    let mut size = f.first.size(bases::WORKED_SIZE);
    if f.first != f.second {
        f.second.plant(&mut frame);
        size = f.second.size(size);
    }
    print!(rt; "{f}")?;
    reads::line(rt, made::first(&frame, size))
}

// Requests of one hole, which starts at byte 23, and of (4, 4) and one that starts at byte 28.
pub(crate) fn holes(rt: &impl Print) -> io::Result<()> {
    for (start, length) in ALONE {
        hole(rt, 23, start, length)?;
    }
    for (start, length) in BEHIND {
        hole(rt, 28, start, length)?;
    }
    Ok(())
}

// The line of a request whose last hole starts at a byte.
fn hole(rt: &impl Print, at: usize, start: u32, length: u32) -> io::Result<()> {
    let mut frame = bases::request();
    octets::put(&mut frame, at, &made::hole(start, length));
    print!(rt; "hole ({start}, {length}) at byte {at}")?;
    reads::line(rt, made::first(&frame, at.wrapping_add(5)))
}
