// Maps and buffers that hold the positions of a pattern, with rubbish wherever nothing is held. The rubbish
// of two patterns differs.
use crate::spaces;
use program_tools::made;
use std::fmt;

// What is held: no position, every one, the even ones, the odd ones, those of two kinds drawn by lot, those
// of every other map byte, those of runs drawn by lot, those below 12, and those from 8 on.
#[derive(Clone, Copy, Debug, PartialEq, Eq)]
pub(crate) enum Pattern {
    Nothing,
    Everything,
    Even,
    Odd,
    Several,
    Others,
    Bytes,
    Runs,
    Low,
    High,
}

impl Pattern {
    // All but the last two, which only the receptions with faults have.
    pub(crate) const ALL: [Pattern; 8] = [
        Pattern::Nothing,
        Pattern::Everything,
        Pattern::Even,
        Pattern::Odd,
        Pattern::Several,
        Pattern::Others,
        Pattern::Bytes,
        Pattern::Runs,
    ];

    // Whether the pattern holds a position.
    fn holds(self, p: u32) -> bool {
        match self {
            Pattern::Nothing => false,
            Pattern::Everything => true,
            Pattern::Even => p % 2 == 0,
            Pattern::Odd => p % 2 == 1,
            Pattern::Several => spaces::below(u64::from(p / 3) + 5000, 2) == 0,
            Pattern::Others => spaces::below(u64::from(p) + 9000, 3) == 0,
            Pattern::Bytes => p / 8 % 2 == 1,
            Pattern::Runs => spaces::below(u64::from(p / 11) + 700, 2) == 1,
            Pattern::Low => p < 12,
            Pattern::High => p > 7,
        }
    }
}

impl fmt::Display for Pattern {
    fn fmt<W: fmt::Write>(&self, f: &mut fmt::Formatter<W>) -> fmt::Result {
        f.write_str(match self {
            Pattern::Nothing => "none",
            Pattern::Everything => "all",
            Pattern::Even => "even",
            Pattern::Odd => "odd",
            Pattern::Several => "some",
            Pattern::Others => "others",
            Pattern::Bytes => "bytes",
            Pattern::Runs => "runs",
            Pattern::Low => "low",
            Pattern::High => "high",
        })
    }
}

// The byte of the made-up file at a position.
// Kept: a remainder and a cast, since this is the file's rule and no conversion.
pub(crate) fn file_byte(p: u32) -> u8 {
    let p = u64::from(p);
    ((p * 37 + p / 256 * 11 + 5) % 256) as u8
}

// The byte of rubbish at a place.
fn rubbish_byte(at: u32, pattern: Pattern) -> u8 {
    made::rubbish(at as usize, pattern as usize)
}

// So many bytes of rubbish, at the start of a space.
pub(crate) fn rubbish(space: &mut [u8], size: u32, pattern: Pattern) -> &mut [u8] {
    let bytes = made::lent(space, size as usize);
    for (byte, at) in bytes.iter_mut().zip(0..size) {
        *byte = rubbish_byte(at, pattern);
    }
    bytes
}

// So many bytes of the buffer of a reception of a length, at the start of a space: at a position that is held the byte of
// the made-up file.
pub(crate) fn buffer(space: &mut [u8], size: u32, length: u32, pattern: Pattern) -> &mut [u8] {
    let buffer = made::lent(space, size as usize);
    for (byte, p) in buffer.iter_mut().zip(0..size) {
        *byte = if p < length && pattern.holds(p) {
            file_byte(p)
        } else {
            rubbish_byte(p, pattern)
        };
    }
    buffer
}

// So many bytes of the map of a reception of a length, with its spare bits set or clear, at the start of a space.
// Kept: `set` is a flag, here and in `all_holes`, `joins` and `sequences`, since it says no more than whether bits are set.
pub(crate) fn map(
    space: &mut [u8],
    size: u32,
    length: u32,
    pattern: Pattern,
    set: bool,
) -> &mut [u8] {
    let map = rubbish(space, size, pattern);
    for p in 0..length {
        put(map, p / 8, 1 << (p % 8), pattern.holds(p));
    }
    spare(map, length, set);
    map
}

// Makes the spare bits of a map set or clear.
pub(crate) fn spare(map: &mut [u8], length: u32, set: bool) {
    if length % 8 != 0 {
        put(map, length / 8, 255 << (length % 8), set);
    }
}

// Makes some bits of a map byte set or clear, where it is lent.
fn put(map: &mut [u8], at: u32, bits: u8, set: bool) {
    if let Some(byte) = map.get_mut(at as usize) {
        *byte = if set { *byte | bits } else { *byte & !bits };
    }
}
