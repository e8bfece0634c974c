// Holes by their index: the first, the last, the one behind it, one whose place would be inside the first
// if it were counted in 32 bits, and the highest index. A hole that is not there is one of no bytes at 0.
use crate::bases;
use program_tools::made;
use std::io;

// A request of 2 and of 49 holes, the start of a file, and a frame that is refused.
pub(crate) fn all(rt: &impl Print) -> io::Result<()> {
    let frame = bases::request();
    println!(rt; "Holes by their index")?;
    line(rt, "2 holes", made::first(&frame, bases::WORKED_SIZE), 2)?;
    line(rt, "49 holes", made::first(&frame, bases::MOST_SIZE), 49)?;
    line(
        rt,
        "start",
        made::first(&bases::start(), bases::START_SIZE),
        0,
    )?;
    line(rt, "34 bytes", made::first(&frame, 34), 2)
}

// The line of a frame that has so many holes.
fn line(rt: &impl Print, name: &str, frame: &[u8], count: u32) -> io::Result<()> {
    print!(rt; "{name}")?;
    for index in [0, count.wrapping_sub(1), count, 858993460, u32::MAX] {
        let hole = request::hole_at(frame, index);
        print!(rt; ", {index}: ({}, {})", hole.start, hole.length)?;
    }
    println!(rt)
}
