// The boundary to a host program: requests, written and read.
//
// A function returns and tells as those of `boundary.rt` and `frame_boundary.rt` do; an address is one number
// (`addresses.rt` of `station`). The contracts cite `specs/RequestExports.antt` of `station`.
ghost use Rattle.station.specs.RequestExports.{head_told, FillsOut, StartsOut, RequestOut, HoleOut};

// Writes a request for holes, as `request::write_fill`, and tells how many it lists and the end of the last: 2,
// 7, 12 (map), 15, 12 (target). The frame is the first 23 + 5 × count bytes of the target.
#[unsafe(no_mangle)]
pub extern "C" fn station_write_fill(
    destination: u64,
    source: u64,
    number: u32,
    length: u32,
    map: &[u8],
    place: u32,
    target: &mut [u8],
    count: &mut u32,
    end: &mut u32,
) -> u8
    ensures { FillsOut (record { head = head_told destination source; number = number; length = length; map = map.now }) place
        (record { count = count.entry.now; end = end.old; target = target.old })
        result (record { count = count.exit.now; end = end.new; target = target.new }) }
{
    station::request_boundary::station_write_fill(
        destination,
        source,
        number,
        length,
        map,
        place,
        target,
        count,
        end,
    )
}

// Writes a request for the start of a file, as `request::write_start`: 2, 12. The frame is the first 23 bytes of
// the target.
#[unsafe(no_mangle)]
pub extern "C" fn station_write_start(
    destination: u64,
    source: u64,
    number: u32,
    target: &mut [u8],
) -> u8
    ensures { StartsOut (head_told destination source) number target.old result target.new }
{
    station::request_boundary::station_write_start(destination, source, number, target)
}

// Reads a frame as a request, as `request::read_request`, and tells destination, source, flags, number, and how many holes
// it lists: 1, 2, 3, 4, 7, 1, 5, 7, 10. The flags are 0x10 for the start of a file and 0x11 for holes.
#[unsafe(no_mangle)]
pub extern "C" fn station_read_request(frame: &[u8], told: &mut [u64; 5]) -> u8
    ensures { RequestOut frame.now told.old result told.new }
{
    station::request_boundary::station_read_request(frame, told)
}

// Tells start and length of the hole with an index, counted from 0, in a request frame; both are 0 beyond the
// request's count. It refuses as `station_read_request` does.
#[unsafe(no_mangle)]
pub extern "C" fn station_hole(
    frame: &[u8],
    index: u32,
    start: &mut u32,
    hole_length: &mut u32,
) -> u8
    ensures { HoleOut frame.now index (record { start = start.entry.now; length = hole_length.old })
        result (record { start = start.exit.now; length = hole_length.new }) }
{
    station::request_boundary::station_hole(frame, index, start, hole_length)
}
