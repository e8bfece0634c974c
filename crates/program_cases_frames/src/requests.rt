// Requests by the numbers of a case, read by the station (01, "Fill request").
use crate::{frames, reading};
use program_tools::cases::{Case, UNTOLD};
use program_tools::made;

// A request: two holes, and 48 more of one position each from 21 to 115 behind them.
fn request<'a>(case: &Case, space: &'a mut [u8]) -> &'a [u8] {
    frames::put_head(case, space);
    octets::put(space, 21, &octets::bytes::<2>(u64::from(case.number(b'b'))));
    let first = made::hole(case.number(b'o'), case.number(b'l'));
    octets::put(space, 23, &first);
    let second = made::hole(case.number(b'u'), case.number(b'v'));
    octets::put(space, 28, &second);
    octets::put(
        space,
        33,
        b"\x15\0\0\x01\0\x17\0\0\x01\0\x19\0\0\x01\0\x1B\0\0\x01\0\
        \x1D\0\0\x01\0\x1F\0\0\x01\0\x21\0\0\x01\0\x23\0\0\x01\0\
        \x25\0\0\x01\0\x27\0\0\x01\0\x29\0\0\x01\0\x2B\0\0\x01\0\
        \x2D\0\0\x01\0\x2F\0\0\x01\0\x31\0\0\x01\0\x33\0\0\x01\0\
        \x35\0\0\x01\0\x37\0\0\x01\0\x39\0\0\x01\0\x3B\0\0\x01\0\
        \x3D\0\0\x01\0\x3F\0\0\x01\0\x41\0\0\x01\0\x43\0\0\x01\0\
        \x45\0\0\x01\0\x47\0\0\x01\0\x49\0\0\x01\0\x4B\0\0\x01\0\
        \x4D\0\0\x01\0\x4F\0\0\x01\0\x51\0\0\x01\0\x53\0\0\x01\0\
        \x55\0\0\x01\0\x57\0\0\x01\0\x59\0\0\x01\0\x5B\0\0\x01\0\
        \x5D\0\0\x01\0\x5F\0\0\x01\0\x61\0\0\x01\0\x63\0\0\x01\0\
        \x65\0\0\x01\0\x67\0\0\x01\0\x69\0\0\x01\0\x6B\0\0\x01\0\
        \x6D\0\0\x01\0\x6F\0\0\x01\0\x71\0\0\x01\0\x73\0\0\x01\0",
    );
    frames::lent(case, space, (case.number(b'd') % 300) as usize + 16)
}

// What a frame that is read as a request tells: the reason, and its five numbers.
fn told(case: &Case) -> (u8, [u64; 5]) {
    let mut space = [0; frames::SPACE];
    let mut told = [u64::from(UNTOLD); 5];
    let frame = request(case, &mut space);
    let reason = station::request_boundary::station_read_request(frame, &mut told);
    (reason, told)
}

// A frame read as a request: the reason, then flags, number and how many holes.
pub(crate) fn read(case: &Case) -> [u32; 4] {
    let (reason, told) = told(case);
    reading::three(reason, told[2], told[3], told[4])
}

// The same with the numbers and bits of both stations for the flags.
pub(crate) fn stations_read(case: &Case) -> [u32; 4] {
    let (reason, told) = told(case);
    let stations = reading::stations(told[0], told[1]);
    reading::three(reason, stations, told[3], told[4])
}

// A hole of a request by its index: the reason, then its start and its length.
pub(crate) fn hole_read(case: &Case) -> [u32; 4] {
    let mut space = [0; frames::SPACE];
    let mut start = UNTOLD;
    let mut length = UNTOLD;
    let reason = station::request_boundary::station_hole(
        request(case, &mut space),
        case.number(b'e'),
        &mut start,
        &mut length,
    );
    [u32::from(reason), start, length, 0]
}
