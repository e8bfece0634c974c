// All flag bytes of a piece or an entry, each with its answer, 16 to a line.
use crate::bases;
use crate::kinds::Kind;
use std::io;

// The table.
pub(crate) fn all(rt: &impl Print, kind: Kind) -> io::Result<()> {
    println!(rt; "Flags, 16 to a line, 0 for accepted: {kind}")?;
    for flags in 0..=u8::MAX {
        value(rt, kind, flags)?;
    }
    Ok(())
}

// What is answered for one flag byte, and the start and the end of its line.
fn value(rt: &impl Print, kind: Kind, flags: u8) -> io::Result<()> {
    let mut frame = bases::base(kind);
    octets::put(&mut frame, ax25::HEAD_LENGTH, &[flags]);
    let refused = kind.answer(&bases::checked(&frame)).err();
    if flags % 16 == 0 {
        print!(rt; "flags {flags:02X}:")?;
    }
    print!(rt; " {}", refused.map_or(0, u8::from))?;
    if flags % 16 == 15 {
        println!(rt)?;
    }
    Ok(())
}
