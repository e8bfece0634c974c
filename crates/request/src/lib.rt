// Fill requests (01, "Fill request"): frames by which a station asks for the holes of a file, or for its
// start, written and read.
//
// `write_fill` lists the holes of a reception from a place on, up to 49 of them; asked again from the end
// that it returns, until it refuses 15, it lists every hole once (`proofs/WholeRun.antt`). `write_start` asks
// for the start. `read_request` reads both, and `hole_of` and `hole_at` hand out a hole by its index. The
// contracts cite `specs/Writing.antt` and `specs/Reading.antt`. That requests name only bytes that are not
// held, and each of these once, is in `proofs/Naming.antt`; that what is written is read back, and what is
// accepted is what writing gives, in `proofs/RoundTrip.antt`, `proofs/SentLaws.antt` and
// `proofs/WrittenAgain.antt`.
#![tactic(auto)]

mod gathering;
mod reading;
mod writing;

ghost use Rattle.std.specs.Prelude.{◌≡◌};
ghost use Rattle.reason.specs.Answer.{answer_of, Writes};
ghost use Rattle.request.specs.Request.{flags_of};
ghost use Rattle.request.specs.Reading.{AsksBy, read_request, hole_read, hole_at};
ghost use Rattle.request.specs.Writing.{Fills, wanted_for, starting};

use ax25::{FILE_PROTOCOL, HEAD_LENGTH, Head};
use holes::Hole;
use reason::Reason;
use reception::File;

// The most holes of a request.
pub const MOST_HOLES: u32 = 49;

// How many bytes a frame of the most holes has: a target of this length is never too short
// (`proofs/EnoughRoom.antt`). `write_start` compares with the first summand under a promise that names what it
// must be, and `write_fill` lends an array of the second where that asks for what it must at least be.
pub const LONGEST_REQUEST: usize = HOLES_AT + ENTRIES;

// The block size of every request.
const BLOCK_SIZE: u64 = 244;

// How many bytes of information stand before the holes, where the holes start in a frame, and how many
// bytes a hole takes.
const BEFORE_HOLES: usize = 7;

const HOLES_AT: usize = HEAD_LENGTH + BEFORE_HOLES;

const BYTES_PER_HOLE: usize = 5;

// How many bytes the most holes take.
const ENTRIES: usize = MOST_HOLES as usize * BYTES_PER_HOLE;

// What a request asks for, by its flags: the start of a file, or the holes that it lists.
#[derive(Clone, Copy, Debug, PartialEq, Eq)]
pub enum Asks {
    Start = 0x10,
    Holes = 0x11,
}

// The flags of a request that asks for it.
impl From<Asks> for u8 {
    ghost from_gives = { λ asks flags. flags ≡ flags_of asks };

    fn from(asks: Asks) -> u8 {
        asks as u8
    }
}

// What flags ask for; refuses 5.
impl TryFrom<u8> for Asks {
    type Error = Reason;

    ghost try_from_gives = { AsksBy };

    fn try_from(flags: u8) -> Result<Asks, Reason> {
        match flags {
            0x10 => Ok(Asks::Start),
            0x11 => Ok(Asks::Holes),
            _ => Err(Reason::Flags),
        }
    }
}

// A request's fields: both addresses, what it asks for, the file's number, and how many holes it lists.
#[derive(Clone, Copy, Debug, PartialEq, Eq)]
pub struct Request {
    pub head: Head,
    pub asks: Asks,
    pub number: u32,
    pub count: u32,
}

// What a written request lists: how many holes, and the end of the last, the first position behind it.
#[derive(Clone, Copy, Debug, PartialEq, Eq)]
pub struct Written {
    pub count: u32,
    pub end: u32,
}

// Writes a request for the holes of a reception, all that start at the place or later, up to 49, into the
// first bytes of the target, and answers how many they are and the end of the last; refuses 2, 7, 12 (map),
// 15, 12 (target).
pub fn write_fill(
    head: Head,
    file: File,
    map: &[u8],
    place: u32,
    target: &mut [u8],
) -> Result<Written, Reason>
    ensures { Fills (wanted_for head file map.now) place target.old result target.new }
{
    if !writing::writable(head) {
        return Err(Reason::Address);
    }
    let mut entries = [0; ENTRIES];
    let written = gathering::gather(file.length, map, place, &mut entries)?;
    let size = (written.count as usize) * BYTES_PER_HOLE;
    if target.len() < HOLES_AT + size {
        return Err(Reason::Space);
    }
    writing::start_frame(target, head, Asks::Holes, file.number);
    octets::put(target, HOLES_AT, &entries[..size]);
    Ok(written)
}

// Writes a request for the start of a file into the first bytes of the target; refuses 2, 12.
pub fn write_start(head: Head, number: u32, target: &mut [u8]) -> Result<(), Reason>
    ensures { Writes target.old (starting head number target.old) result target.new }
{
    if !writing::writable(head) {
        return Err(Reason::Address);
    }
    if target.len() < HOLES_AT {
        return Err(Reason::Space);
    }
    writing::start_frame(target, head, Asks::Start, number);
    Ok(())
}

// Reads a frame as a request; refuses 1 (below 16), 2, 3, 4, 7 (over 255), 1 (information), 5, 7 (block
// size, count, odd bytes), 10.
pub fn read_request(frame: &[u8]) -> Result<Request, Reason>
    ensures { answer_of result ≡ read_request frame.now }
{
    let head = ax25::read_head(frame, FILE_PROTOCOL)?;
    reading::read(&frame[HEAD_LENGTH..], head)
}

// The hole with an index, counted from 0, of a request frame. Beyond the request's count, and of a frame
// that is refused, it is a hole of no bytes at 0, which no accepted request has.
pub fn hole_at(frame: &[u8], index: u32) -> Hole
    ensures { result ≡ hole_at frame.now index }
{
    hole_of(frame, read_request(frame), index)
}

// The same for a frame that `read_request` has read: its answer is handed in, and the frame is not read
// again. By the answer of another frame it hands out what stands at that place here.
pub fn hole_of(frame: &[u8], read: Result<Request, Reason>, index: u32) -> Hole
    ensures { result ≡ hole_read (answer_of read) frame.now index }
{
    match read {
        Ok(request) if index < request.count => reading::hole_in_frame(frame, index),
        _ => reading::NO_HOLE,
    }
}
