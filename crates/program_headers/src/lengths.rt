// Headers with bytes behind them, which are not looked at, and headers that are cut.
use crate::answers;
use crate::figure::HEADER;
use crate::items::Bytes;
use program_tools::made;
use std::io;

// The lines of the header with 1, 2, 3 and 40 bytes behind it, all 00 or all FF.
pub(crate) fn longer(rt: &impl Print) -> io::Result<()> {
    for byte in [0x00, 0xFF] {
        for n in [1, 2, 3, 40] {
            print!(rt; "{byte:02X} x {n}")?;
            let mut header = Bytes::new();
            header.extend(HEADER)?;
            header.extend(std::iter::repeat(byte).take(n))?;
            answers::end(rt, &header)?;
        }
    }
    Ok(())
}

// The lines of the first bytes of the header, from none to all.
pub(crate) fn cut(rt: &impl Print) -> io::Result<()> {
    for n in 0..=80 {
        print!(rt; "first {n}")?;
        answers::end(rt, made::first(&HEADER, n))?;
    }
    Ok(())
}
