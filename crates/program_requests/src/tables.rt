// Tables of answers, 16 to a line, each the reason of a frame or 0 where it is accepted: frames of every
// size, and frames with every value of one byte.
use crate::bases;
use program_tools::made;
use std::io;

// The bytes of which every value is tried: protocol, flags and block size (2).
const PLACES: [usize; 4] = [15, 16, 21, 22];

// The sizes of the worked request with right holes behind it.
pub(crate) fn sizes(rt: &impl Print) -> io::Result<()> {
    println!(rt; "By size")?;
    let frame = bases::request();
    for size in 0..288 {
        entry(rt, size, made::first(&frame, size))?;
    }
    Ok(())
}

// The values of each of the bytes.
pub(crate) fn values(rt: &impl Print) -> io::Result<()> {
    for at in PLACES {
        println!(rt; "By the value of byte {at}")?;
        of_byte(rt, at)?;
    }
    Ok(())
}

// The values of a byte of the worked request.
fn of_byte(rt: &impl Print, at: usize) -> io::Result<()> {
    let mut frame = bases::request();
    for value in 0..=u8::MAX {
        octets::put(&mut frame, at, &[value]);
        entry(
            rt,
            usize::from(value),
            made::first(&frame, bases::WORKED_SIZE),
        )?;
    }
    Ok(())
}

// The answer for a frame, with a number at the start of each line.
fn entry(rt: &impl Print, n: usize, frame: &[u8]) -> io::Result<()> {
    if n % 16 == 0 {
        print!(rt; "{n}:")?;
    }
    let refused = request::read_request(frame).err();
    print!(rt; " {}", refused.map_or(0, u8::from))?;
    if n % 16 == 15 {
        println!(rt)?;
    }
    Ok(())
}
