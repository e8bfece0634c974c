// The information of a request, read.
ghost use Rattle.std.specs.Prelude.{◌≡◌, ◌&&◌, ◌+◌, ◌≤◌, ◌<◌, ◌^◌, eqb, length};
ghost use Rattle.reason.specs.Answer.{answer_of};
ghost use Rattle.reason.specs.Order.{first_of};
ghost use Rattle.octets.specs.Numbers.{number_at};
ghost use Rattle.octets.specs.Values.{values_from};
ghost use Rattle.ax25.specs.Information.{information_of};
ghost use Rattle.request.specs.Request.{block_size, most_holes, before_holes, holes_of_kind, hole_right, holes_right};
ghost use Rattle.request.specs.Reading.{count_in, odd_bytes, hole_spelled, hole_in, request_checks, request_fields};

use super::{Asks, BEFORE_HOLES, BLOCK_SIZE, BYTES_PER_HOLE, HOLES_AT, MOST_HOLES, Request};
use ax25::Head;
use holes::Hole;
use reason::Reason;
use reception::LONGEST;

// No hole: one of no bytes.
pub(crate) const NO_HOLE: Hole = Hole {
    start: 0,
    length: 0,
};

// Reads the information of a frame with the head; refuses 1, 5, 7, 10.
pub(crate) fn read(s: &[u8], head: Head) -> Result<Request, Reason>
    ensures { answer_of result ≡ first_of (request_checks s.now) (request_fields head s.now) }
{
    if s.len() < BEFORE_HOLES {
        return Err(Reason::Short);
    }
    let asks = Asks::try_from(s[0])?;
    if !size_right(s, asks) {
        return Err(Reason::Size);
    }
    let count = count_in(s);
    if !holes_right(s, count) {
        return Err(Reason::Beyond);
    }
    let number = octets::number::<4>(s, 1) as u32;
    Ok(Request {
        head,
        asks,
        number,
        count: count as u32,
    })
}

// How many holes follow.
// Kept: three functions ask that the bytes before the holes are there. `read` calls them behind its one test, and a type for that would
// be made in one line and taken apart in three.
fn count_in(s: &[u8]) -> usize
    requires { before_holes ≤ length s.now }
    ensures { result ≡ count_in s.now }
{
    (s.len() - BEFORE_HOLES) / BYTES_PER_HOLE
}

// Whether the block size is right, and as many holes follow as what is asked for has.
fn size_right(s: &[u8], asks: Asks) -> bool
    requires { before_holes ≤ length s.now }
    ensures { result ≡ (eqb (number_at 2 s.now 5) block_size && (eqb (odd_bytes s.now) 0 && holes_of_kind asks (count_in s.now))) }
{
    octets::number::<2>(s, 5) == BLOCK_SIZE && count_right(s, asks)
}

// Whether no bytes are left over, and a request for the start has no holes and a list of holes 1 to 49.
fn count_right(s: &[u8], asks: Asks) -> bool
    requires { before_holes ≤ length s.now }
    ensures { result ≡ (eqb (odd_bytes s.now) 0 && holes_of_kind asks (count_in s.now)) }
{
    let count = count_in(s);
    let odd = (s.len() - BEFORE_HOLES) % BYTES_PER_HOLE;
    let right = match asks {
        Asks::Start => count == 0,
        Asks::Holes => 1 <= count && count <= MOST_HOLES as usize,
    };
    odd == 0 && right
}

// The hole in the five bytes of s from a place on.
fn hole_from(s: &[u8], at: usize) -> Hole
    requires { at < 2 ^ 63 }
    ensures value { result ≡ hole_spelled s.now at }
    ensures start_bound { (result.start < 2 ^ 24) × (result.length < 2 ^ 16) }
{
    Hole {
        start: octets::number::<3>(s, at) as u32,
        length: octets::number::<2>(s, at + 3) as u32,
    }
}

// Whether a hole starts at the place or later, has at least 1 byte, and does not end beyond 32,768.
fn hole_right(place: u32, hole: Hole) -> bool
    requires { (hole.start < 2 ^ 24) × (hole.length < 2 ^ 16) }
    ensures { result ≡ hole_right place hole }
{
    place <= hole.start && 1 <= hole.length && hole.start + hole.length <= LONGEST
}

// Whether the holes ascend, with at least one position between neighbours.
fn holes_right(s: &[u8], count: usize) -> bool
    requires { count ≤ most_holes }
    ensures { result ≡ holes_right 0 (values_from (hole_in s.now) 0 count) }
{
    let mut place = 0;
    for i in 0..count {
        let hole = hole_from(s, BEFORE_HOLES + i * BYTES_PER_HOLE);
        if !hole_right(place, hole) {
            return false;
        }
        place = hole.start + hole.length + 1;
    }
    true
}

// The hole with an index of a frame.
pub(crate) fn hole_in_frame(frame: &[u8], index: u32) -> Hole
    ensures { result ≡ hole_in (information_of frame.now) index }
{
    hole_from(frame, HOLES_AT + index as usize * BYTES_PER_HOLE)
}
