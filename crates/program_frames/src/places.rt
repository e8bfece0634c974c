// Entries with another byte at one place: 1 in each of the four bytes of the offset, and behind the end
// item one to three zeros, FF, and an item 30 of no data.
use crate::bases;
use crate::kinds::Kind;
use program_tools::show::Answer;
use std::io;

// Each byte, its place, and the size of the entry without its check, which is 113 in the figure.
const BYTES: [(u8, usize, usize); 9] = [
    (0x01, 21, 113),
    (0x01, 22, 113),
    (0x01, 23, 113),
    (0x01, 24, 113),
    (0x00, 113, 114),
    (0x00, 113, 115),
    (0x00, 113, 116),
    (0xFF, 113, 114),
    (0x30, 113, 116),
];

// The lines of all of them.
pub(crate) fn all(rt: &impl Print) -> io::Result<()> {
    for (byte, at, size) in BYTES {
        line(rt, byte, at, size)?;
    }
    Ok(())
}

// The line of the entry with another byte at a place, followed by zeros up to a size.
fn line(rt: &impl Print, byte: u8, at: usize, size: usize) -> io::Result<()> {
    let mut frame = bases::filled(&bases::entry(), size);
    octets::put(&mut frame, at, &[byte]);
    let answer = Kind::Entry.answer(&bases::checked(&frame));
    println!(rt; "{byte:02X} at {at} of {size}: {}", Answer(answer))
}
