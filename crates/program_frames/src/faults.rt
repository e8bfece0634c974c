// Every fault planted alone, and every pair of faults that one frame can have: the first in the order
// of the paper is answered. A question mark stands behind an answer that is another one.
use crate::bases;
use crate::bases::Frame;
use crate::kinds::Kind;
use program_tools::made;
use program_tools::planted::Planted;
use program_tools::show::Answer;
use reason::Reason;
use std::{fmt, io};

// The faults, in the paper's order. From the destination to the protocol they are those of the first 16 bytes.
#[derive(Clone, Copy, Debug, PartialEq, Eq, PartialOrd, Ord)]
pub(crate) enum Fault {
    // Only the first 15 bytes are there.
    Short,
    // The destination is in lower case.
    Destination,
    // The source has a low bit set.
    Source,
    // The control byte is 13.
    Control,
    // The protocol is that of the other reading.
    Protocol,
    // The information is longer than 255 bytes.
    Long,
    // The information is too short.
    Information,
    // The last check byte is wrong.
    Check,
    // The flags have bit 0 set.
    Flags,
    // An entry's flags have bit 5 clear.
    NotWhole,
    // An entry's offset is 1.
    Offset,
    // A piece has no data.
    NoData,
    // An entry's number is not item 01's.
    Header,
}

impl Fault {
    const ALL: [Fault; 13] = [
        Fault::Short,
        Fault::Destination,
        Fault::Source,
        Fault::Control,
        Fault::Protocol,
        Fault::Long,
        Fault::Information,
        Fault::Check,
        Fault::Flags,
        Fault::NotWhole,
        Fault::Offset,
        Fault::NoData,
        Fault::Header,
    ];

    // The reason that is given for it.
    fn reason(self) -> Reason {
        match self {
            Fault::Short | Fault::Information => Reason::Short,
            Fault::Destination | Fault::Source => Reason::Address,
            Fault::Control => Reason::Control,
            Fault::Protocol => Reason::Protocol,
            Fault::Long | Fault::NoData => Reason::Size,
            Fault::Check => Reason::Check,
            Fault::Flags => Reason::Flags,
            Fault::NotWhole | Fault::Offset => Reason::NotWhole,
            Fault::Header => Reason::Header,
        }
    }

    // Whether frames of a kind can have it.
    fn is_of(self, kind: Kind) -> bool {
        match self {
            Fault::NotWhole | Fault::Offset | Fault::Header => kind == Kind::Entry,
            Fault::NoData => kind == Kind::Piece,
            _ => true,
        }
    }

    // Whether it fixes the length of the information.
    fn is_length(self) -> bool {
        matches!(self, Fault::Long | Fault::Information | Fault::NoData)
    }

    // Turns over the bits of a frame that differ by it, if any, before the check is made.
    fn plant(self, frame: &mut [u8]) {
        match self {
            Fault::Destination => made::turn(frame, 0, 0x40),
            Fault::Source => made::turn(frame, 7, 1),
            Fault::Control => made::turn(frame, 14, 0x10),
            Fault::Protocol => made::turn(frame, 15, 6),
            Fault::Flags => made::turn(frame, 16, 1),
            Fault::NotWhole => made::turn(frame, 16, 0x20),
            Fault::Offset => made::turn(frame, 21, 1),
            Fault::Header => made::turn(frame, 17, 1),
            Fault::Short | Fault::Long | Fault::Information | Fault::Check | Fault::NoData => {}
        }
    }
}

// Its name: its reason, with a letter where several have the same.
impl fmt::Display for Fault {
    fn fmt<W: fmt::Write>(&self, f: &mut fmt::Formatter<W>) -> fmt::Result {
        f.write_str(match self {
            Fault::Short => "1",
            Fault::Destination => "2",
            Fault::Source => "2s",
            Fault::Control => "3",
            Fault::Protocol => "4",
            Fault::Long => "7",
            Fault::Information => "1i",
            Fault::Check => "6",
            Fault::Flags => "5",
            Fault::NotWhole => "14",
            Fault::Offset => "14o",
            Fault::NoData => "7n",
            Fault::Header => "8",
        })
    }
}

// The lines of each fault with itself, which is that fault alone, and with each that comes later in the order.
pub(crate) fn pairs(rt: &impl Print, kind: Kind) -> io::Result<()> {
    println!(rt; "Faults: {kind}")?;
    for first in Fault::ALL {
        for second in Fault::ALL {
            let f = Planted { first, second };
            if possible(kind, f) {
                line(rt, kind, f, &frame(kind, f))?;
            }
        }
    }
    Ok(())
}

// Whether frames of a kind can have both faults. Where there are 15 bytes, what lies behind them has no fault; one length
// of the information is fixed by one fault; and where it is short there is no header.
fn possible(kind: Kind, f: Planted<Fault>) -> bool {
    let Planted { first, second } = f;
    if !(first.is_of(kind) && second.is_of(kind)) {
        return false;
    }
    first == second
        || first < second
            && (first != Fault::Short || second < Fault::Protocol)
            && !(first.is_length() && second.is_length())
            && !(first == Fault::Information && second == Fault::Header)
}

// The lines of a frame's first 16 bytes with one fault, where there are no more.
pub(crate) fn heads(rt: &impl Print, kind: Kind) -> io::Result<()> {
    println!(rt; "Faults of 16 bytes: {kind}")?;
    for fault in [
        Fault::Destination,
        Fault::Source,
        Fault::Control,
        Fault::Protocol,
    ] {
        let f = alone(fault);
        line(rt, kind, f, made::first(&frame(kind, f), 16))?;
    }
    Ok(())
}

// One fault alone.
pub(crate) fn alone(fault: Fault) -> Planted<Fault> {
    Planted {
        first: fault,
        second: fault,
    }
}

// The line of a frame with two faults: their names, the answer, and a question mark where it is not the first's reason.
fn line(rt: &impl Print, kind: Kind, f: Planted<Fault>, frame: &[u8]) -> io::Result<()> {
    let Planted { first, second } = f;
    print!(rt; "{kind} {first}")?;
    if first != second {
        print!(rt; " {second}")?;
    }
    let answer = kind.answer(frame);
    let mark = if answer == Err(first.reason()) {
        ""
    } else {
        " ?"
    };
    println!(rt; ": {}{mark}", Answer(answer))
}

// The frame with the faults.
pub(crate) fn frame(kind: Kind, f: Planted<Fault>) -> Frame {
    let mut frame = match kind {
        Kind::Piece => piece(f),
        Kind::Entry => entry(f),
    };
    f.first.plant(&mut frame);
    if f.first != f.second {
        f.second.plant(&mut frame);
    }
    let mut frame = bases::closed(&frame, f.choice(Fault::Check, 0, 1));
    if f.has(Fault::Short) {
        frame.truncate(15);
    }
    frame
}

// A piece with no fault but one of its length, without its check.
fn piece(f: Planted<Fault>) -> Frame {
    let n = if f.has(Fault::Long) {
        245
    } else if f.has(Fault::Information) || f.has(Fault::NoData) {
        0
    } else {
        4
    };
    let mut frame = bases::piece(n);
    if f.has(Fault::Information) {
        frame.truncate(24);
    }
    frame
}

// An entry with no fault but one of its length, without its check.
fn entry(f: Planted<Fault>) -> Frame {
    let mut frame = if f.has(Fault::Long) {
        bases::long_entry()
    } else {
        bases::entry()
    };
    if f.has(Fault::Information) {
        frame.truncate(32);
    }
    frame
}
