// What the station reads of a piece and of a directory entry (01, "Frame", "File header").
use crate::frames;
use program_tools::cases::{Case, UNTOLD};

// What a piece's numbers are before a call tells them: of both addresses, the station's number.
const UNTOLD_PIECE: [u64; 7] = [0x63000000000000, 0x63000000000000, 99, 99, 99, 99, 99];

// What the station tells of an entry: the reason, its numbers, and those of its header.
// Kept: the reason is a number, as the functions for C, which are tried here, return it.
#[derive(Clone, Copy, Debug, PartialEq, Eq)]
struct Told {
    reason: u8,
    entry: [u64; 9],
    header: [u64; 12],
}

// A frame read as a piece: the reason, then offset, how many bytes, and the numbers and bits of both stations.
pub(crate) fn piece_read(case: &Case) -> [u32; 4] {
    let mut space = [0; frames::SPACE];
    let mut told = UNTOLD_PIECE;
    let reason = station::frame_boundary::station_piece(frames::piece(case, &mut space), &mut told);
    three(reason, told[4], told[6], stations(told[0], told[1]))
}

// The numbers and the bits of both stations in one: the seventh bytes of both addresses, that of the destination in hundreds, and
// in tens of thousands the eighth of the source, in hundreds of thousands that of the destination.
pub(crate) fn stations(to: u64, from: u64) -> u64 {
    let to = to.to_le_bytes();
    let from = from.to_le_bytes();
    let numbers = u64::from(to[6]) * 100 + u64::from(from[6]);
    let bits = u64::from(to[7]) * 10 + u64::from(from[7]);
    bits * 10000 + numbers
}

// A frame read as a directory entry.
fn entry_told(case: &Case) -> Told {
    let mut space = [0; frames::SPACE];
    let mut entry = [u64::from(UNTOLD); 9];
    let mut header = [u64::from(UNTOLD); 12];
    let frame = frames::entry(case, &mut space);
    let reason = station::frame_boundary::station_entry(frame, &mut entry, &mut header);
    Told {
        reason,
        entry,
        header,
    }
}

// Of an entry the reason, then flags, number, and how many bytes its header has.
pub(crate) fn entry_read(case: &Case) -> [u32; 4] {
    let told = entry_told(case);
    three(told.reason, told.entry[2], told.entry[3], told.entry[8])
}

// The same with the numbers and bits of both stations for the flags.
pub(crate) fn entry_stations(case: &Case) -> [u32; 4] {
    let told = entry_told(case);
    let stations = stations(told.entry[0], told.entry[1]);
    three(told.reason, stations, told.entry[3], told.entry[8])
}

// Of the header of such a frame the reason, then the length of the file, the body offset, and 1 where item 12 is present.
pub(crate) fn header_read(case: &Case) -> [u32; 4] {
    let told = entry_told(case);
    three(told.reason, told.header[2], told.header[9], told.header[10])
}

// A reason, as a function for C returns it, and the lowest four bytes of three numbers.
pub(crate) fn three(reason: u8, a: u64, b: u64, c: u64) -> [u32; 4] {
    [u32::from(reason), word(a), word(b), word(c)]
}

// The lowest four bytes of a number.
fn word(n: u64) -> u32 {
    (n % 0x100000000) as u32
}
