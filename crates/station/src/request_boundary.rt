// The boundary to a host program: requests, written and read.
//
// A function returns and tells as those of `boundary.rt` and `frame_boundary.rt` do; an address is one number
// (`addresses.rt`). The contracts cite `specs/RequestExports.antt`.
// Kept: a number is returned and the parameters are flat, since C calls each of these through `station_c`.
ghost use Rattle.std.specs.Prelude.{◌≡◌};
ghost use Rattle.station.specs.RequestExports.{head_told, FillsOut, StartsOut, RequestOut, HoleOut};

use super::{addresses, boundary};
use ax25::Head;
use reception::File;

// Writes a request for holes, as `request::write_fill`, and tells how many it lists and the end of the last: 2,
// 7, 12 (map), 15, 12 (target). The frame is the first 23 + 5 × count bytes of the target.
pub fn station_write_fill(
    destination: u64,
    source: u64,
    number: u32,
    length: u32,
    map: &[u8],
    place: u32,
    target: &mut [u8],
    count: &mut u32,
    end: &mut u32,
) -> u8
    ensures { FillsOut (record { head = head_told destination source; number = number; length = length; map = map.now }) place
        (record { count = count.entry.now; end = end.old; target = target.old })
        result (record { count = count.exit.now; end = end.new; target = target.new }) }
{
    let head = head_told(destination, source);
    let filled = request::write_fill(head, File { number, length }, map, place, target);
    if let Ok(written) = filled {
        *count = written.count;
        *end = written.end;
    }
    boundary::code_of(filled)
}

// Writes a request for the start of a file, as `request::write_start`: 2, 12. The frame is the first 23 bytes of
// the target.
pub fn station_write_start(destination: u64, source: u64, number: u32, target: &mut [u8]) -> u8
    ensures { StartsOut (head_told destination source) number target.old result target.new }
{
    let head = head_told(destination, source);
    boundary::code_of(request::write_start(head, number, target))
}

// Reads a frame as a request, as `request::read_request`, and tells destination, source, flags, number, and how many holes
// it lists: 1, 2, 3, 4, 7, 1, 5, 7, 10. The flags are 0x10 for the start of a file and 0x11 for holes.
pub fn station_read_request(frame: &[u8], told: &mut [u64; 5]) -> u8
    ensures { RequestOut frame.now told.old result told.new }
{
    let read = request::read_request(frame);
    if let Ok(request) = read {
        *told = [
            addresses::address_number(request.head.destination),
            addresses::address_number(request.head.source),
            u64::from(u8::from(request.asks)),
            u64::from(request.number),
            u64::from(request.count),
        ];
    }
    boundary::code_of(read)
}

// Tells start and length of the hole with an index, counted from 0, in a request frame; both are 0 beyond the
// request's count. It refuses as `station_read_request` does.
pub fn station_hole(frame: &[u8], index: u32, start: &mut u32, hole_length: &mut u32) -> u8
    ensures { HoleOut frame.now index (record { start = start.entry.now; length = hole_length.old })
        result (record { start = start.exit.now; length = hole_length.new }) }
{
    let read = request::read_request(frame);
    if read.is_ok() {
        let hole = request::hole_of(frame, read, index);
        *start = hole.start;
        *hole_length = hole.length;
    }
    boundary::code_of(read)
}

// The head that two numbers tell.
fn head_told(destination: u64, source: u64) -> Head
    ensures { result ≡ head_told destination source }
{
    Head {
        destination: addresses::address_of(destination),
        source: addresses::address_of(source),
    }
}
