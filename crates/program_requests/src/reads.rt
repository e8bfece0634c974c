// Frames read as requests: what the library reads of a frame, with each of its holes; and what it wrote, in
// hexadecimal and read back.
use crate::bases;
use ax25::{Address, Head};
use program_tools::made;
use program_tools::show::{Hex, Refused};
use request::{Asks, Request};
use std::{fmt, io};

// A station as it is written: its characters, its number, and bit 7 where it is set.
#[derive(Clone, Copy, Debug, PartialEq, Eq)]
struct Station(Address);

impl fmt::Display for Station {
    fn fmt<W: fmt::Write>(&self, f: &mut fmt::Formatter<W>) -> fmt::Result {
        let Address {
            characters,
            number,
            bit7,
        } = self.0;
        for character in characters {
            write!(f, "{}", char::from(character))?;
        }
        write!(f, "-{number}")?;
        if bit7 != 0 {
            write!(f, " (bit 7: {bit7})")?;
        }
        Ok(())
    }
}

// Requests for holes: the worked one, 49 holes, the fiftieth, the longest hole, and the last position; and
// a request for the start.
pub(crate) fn back(rt: &impl Print) -> io::Result<()> {
    println!(rt; "The worked request: length 20, number 7, held 0 to 3 and 8 to 9")?;
    full(rt, 20, bases::WORKED, 0, bases::WORKED_SIZE)?;
    println!(rt; "49 holes; the fiftieth; 32768 not held; the last of 32768")?;
    full(rt, 98, bases::ODD, 0, bases::MOST_SIZE)?;
    full(rt, 100, bases::ODD, 98, 28)?;
    full(rt, 32768, [0; 3], 0, 28)?;
    full(rt, 32768, [0x7F; 3], 32760, 28)?;
    println!(rt; "A request for the start")?;
    shown(rt, made::first(&bases::start(), bases::START_SIZE))?;
    println!(rt; "Bit 7 of the destination, of the source, of both")?;
    for (to, from) in [(1, 0), (0, 1), (1, 1)] {
        bits(rt, to, from)?;
    }
    Ok(())
}

// The lines of a request for holes, of which the first bytes of the target are shown.
fn full(rt: &impl Print, length: u32, map: [u8; 3], place: u32, size: usize) -> io::Result<()> {
    let mut target = bases::TARGET;
    let map = bases::map(map);
    let _ = request::write_fill(bases::HEAD, bases::file(length), &map, place, &mut target);
    shown(rt, made::first(&target, size))
}

// The lines of the worked request and of one for the start, with bits that the caller chooses.
fn bits(rt: &impl Print, to: u8, from: u8) -> io::Result<()> {
    let head = Head {
        destination: Address {
            bit7: to,
            ..bases::HEAD.destination
        },
        source: Address {
            bit7: from,
            ..bases::HEAD.source
        },
    };
    let mut target = bases::TARGET;
    let map = bases::map(bases::WORKED);
    let _ = request::write_fill(head, bases::file(20), &map, 0, &mut target);
    shown(rt, made::first(&target, bases::WORKED_SIZE))?;
    let mut target = bases::TARGET;
    let _ = request::write_start(head, bases::START, &mut target);
    shown(rt, made::first(&target, bases::START_SIZE))
}

// The lines of a frame: its bytes, and what is read of it.
fn shown(rt: &impl Print, frame: &[u8]) -> io::Result<()> {
    println!(rt; "frame{}", Hex(frame))?;
    print!(rt; "read")?;
    line(rt, frame)
}

// The rest of a line: what is read of a frame, its fields and its holes, or the reason.
pub(crate) fn line(rt: &impl Print, frame: &[u8]) -> io::Result<()> {
    let read = request::read_request(frame);
    match read {
        Ok(request) => {
            fields(rt, request)?;
            for index in 0..request.count {
                let hole = request::hole_of(frame, read, index);
                print!(rt; " ({}, {})", hole.start, hole.length)?;
            }
            println!(rt)
        }
        Err(reason) => println!(rt; ": {}", Refused(reason)),
    }
}

// The fields of a request: both stations, what it asks for, the file and how many holes.
fn fields(rt: &impl Print, request: Request) -> io::Result<()> {
    let Head {
        destination,
        source,
    } = request.head;
    print!(rt; ": {} from {}", Station(destination), Station(source))?;
    let asks = match request.asks {
        Asks::Start => "start",
        Asks::Holes => "list",
    };
    print!(rt;
        ", {asks}, file {}, holes {}",
        request.number, request.count
    )
}
