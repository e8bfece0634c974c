// The worked record of the paper with the change that the line names, read and loaded into space of five
// sizes: cut short and longer, with other bytes, with other numbers in its fields, and with two fields in
// the other order.
use crate::answers::Bytes;
use crate::loads;
use program_tools::made;
use std::io;

// The worked record of the paper.
pub(crate) const WORKED: [u8; 43] =
    *b"\x01\x04\0\x07\0\0\0\x02\x04\0\x14\0\0\0\x03\x03\0\x0F\x03\0\x04\x14\0ABCD\0\0\0\0EF\0\0\0\0\0\0\0\0\0\0";

// Numbers and lengths that the first two fields say, with the places of their bytes.
const SAID: [(usize, u32); 10] = [
    (3, 0),
    (3, 4294967295),
    (10, 0),
    (10, 16),
    (10, 17),
    (10, 21),
    (10, 24),
    (10, 32769),
    (10, 65556),
    (10, 335544320),
];

// The lines of the first bytes of the worked record, from none to all; one more is FF, and the one behind it is zero.
pub(crate) fn cuts(rt: &impl Print) -> io::Result<()> {
    let mut longer = [0; 45];
    octets::put(&mut longer, 0, &WORKED);
    octets::put(&mut longer, 43, b"\xFF");
    for n in 0..46 {
        print!(rt; "first {n}")?;
        loads::tried(rt, made::first(&longer, n))?;
    }
    Ok(())
}

// The lines of six bytes at each place: 00, 01, FF, the byte that follows it in value, and the byte with bit 4
// or bit 7 turned over, which in the last byte of the map are the first and the last spare bit.
pub(crate) fn bytes(rt: &impl Print) -> io::Result<()> {
    for (at, b) in WORKED.iter().copied().enumerate() {
        for other in [0, 1, 255, b.wrapping_add(1), b ^ 16, b ^ 128] {
            changed(rt, at, &[other])?;
        }
    }
    Ok(())
}

// The lines of another number in the first field, or of another length in the second.
pub(crate) fn numbers(rt: &impl Print) -> io::Result<()> {
    for (at, said) in SAID {
        changed(rt, at, &said.to_le_bytes())?;
    }
    Ok(())
}

// The line of the first two fields in the other order.
pub(crate) fn exchanged(rt: &impl Print) -> io::Result<()> {
    changed(rt, 0, b"\x02\x04\0\x14\0\0\0\x01\x04\0\x07\0\0\0")
}

// The line of other bytes from a place on.
fn changed(rt: &impl Print, at: usize, run: &[u8]) -> io::Result<()> {
    let mut record = WORKED;
    octets::put(&mut record, at, run);
    print!(rt; "byte {at} is{}", Bytes(run))?;
    loads::tried(rt, &record)
}
