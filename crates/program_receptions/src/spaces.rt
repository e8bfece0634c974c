// What the cases are made of: lengths, spaces, and numbers that look drawn by lot.
use program_tools::planted::Planted;

// The lengths of files: those on both sides of every limit and of a map byte, and some between. A file
// can have those from the second to the twelfth.
pub(crate) const LENGTHS: [u32; 15] = [
    0, 1, 7, 8, 9, 20, 65, 1000, 63, 64, 32767, 32768, 32769, 65556, 4294967295,
];

// How many bytes of space there are for a map, for a buffer and for a piece: more than any file needs, and as many as the
// longest piece has. Where nothing is to be written in a map, all of its space is lent.
pub(crate) const MAP: usize = 4200;

pub(crate) const BUFFER: usize = 33000;

pub(crate) const PIECE: usize = 1000;

// How many bytes of a map and of a buffer are lent.
#[derive(Clone, Copy, Debug, PartialEq, Eq)]
pub(crate) struct Lent {
    pub(crate) map: u32,
    pub(crate) buffer: u32,
}

// Space for a file, short by one in the map and in the buffer but for some bytes more.
pub(crate) fn space(length: u32, map: u8, buffer: u8) -> Lent {
    Lent {
        map: size(length.div_ceil(8), map),
        buffer: size(length, buffer),
    }
}

// A size short by one but for some bytes more.
fn size(exact: u32, more: u8) -> u32 {
    exact.saturating_add(u32::from(more)).saturating_sub(1)
}

// The space of a reception with faults, exact for its length, or for 20 where it has none, or short by one in the map or
// in the buffer.
pub(crate) fn exact<F: Copy + PartialEq>(f: Planted<F>, length: u32, map: F, buffer: F) -> Lent {
    space(
        if length == 0 { 20 } else { length },
        u8::from(!f.has(map)),
        u8::from(!f.has(buffer)),
    )
}

// The length of a reception: a right one, or by two faults 0 or 32,769.
pub(crate) fn wrong_length<F: Copy + PartialEq>(
    f: Planted<F>,
    none: F,
    long: F,
    right: u32,
) -> u32 {
    f.choice(none, f.choice(long, right, 32769), 0)
}

// Whether two faults are to be tried, where `none` is "no fault", which is tried alone: one that stands twice, or two in
// their order.
pub(crate) fn in_order<F: Copy + PartialOrd>(f: Planted<F>, none: F) -> bool {
    f.first == f.second || (f.first < f.second && f.second != none)
}

// A number below n, drawn by lot: always the same for one k and n, and 0 where n is 0.
pub(crate) fn below(k: u64, n: u32) -> u32 {
    let drawn = mixed(mixed(mixed(k))) / 65536 % 32768;
    (drawn as u32) % n.max(1)
}

// One turn of the lot: a number below 2^31.
fn mixed(x: u64) -> u64 {
    let y = x % 2147483648 * 1103515245 + 12345;
    (y ^ (y / 32768)) % 2147483648
}
