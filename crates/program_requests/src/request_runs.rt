// Runs of requests: from place 0, and then each from the end of the one before, until there is no hole.
use crate::bases;
use program_tools::made;
use program_tools::show::Refused;
use request::Written;
use std::{fmt, io};

// Map bytes of which every second position is held, the even ones, and the odd ones.
const EVEN: u8 = 0x55;

const ODD: u8 = 0xAA;

// The lengths of the files and the bytes of their maps: the runs of 49 and 50 holes first, then 48 and 51, and the longest
// file with every second position held, none and all.
const FILES: [(u32, u8); 9] = [
    (98, EVEN),
    (98, ODD),
    (100, EVEN),
    (100, ODD),
    (96, ODD),
    (102, ODD),
    (32768, ODD),
    (32768, 0),
    (32768, 0xFF),
];

// What was asked for so far: the place behind it, how many frames and holes, and the sum of the frames' sums.
#[derive(Clone, Copy, Debug, PartialEq, Eq, Default)]
struct Tally {
    place: u32,
    frames: u32,
    holes: u32,
    sum: u32,
}

impl Tally {
    // With one request more.
    fn with(self, written: Written, sum: u32) -> Self {
        Tally {
            place: written.end,
            frames: self.frames.wrapping_add(1),
            holes: self.holes.wrapping_add(written.count),
            sum: made::summed(self.sum, sum),
        }
    }
}

impl fmt::Display for Tally {
    fn fmt<W: fmt::Write>(&self, f: &mut fmt::Formatter<W>) -> fmt::Result {
        let Tally {
            frames,
            holes,
            sum,
            ..
        } = *self;
        write!(f, "frames {frames}, holes {holes}, sum {sum}")
    }
}

// All runs.
pub(crate) fn all(rt: &impl Print) -> io::Result<()> {
    println!(rt;
        "49 and 50 holes need one and two frames (map bytes 85: even positions held, 170: odd)"
    )?;
    for (length, bits) in FILES {
        run(rt, length, bits)?;
    }
    Ok(())
}

// The lines of a run: the first two requests, one for every 98 positions at most and one that is refused, and a line for
// all of them.
fn run(rt: &impl Print, length: u32, bits: u8) -> io::Result<()> {
    println!(rt; "Length {length} with map bytes {bits}")?;
    let map = bases::map([bits; 3]);
    let mut tally = Tally::default();
    for _ in 0..length / 98 + 2 {
        let mut target = bases::TARGET;
        let place = tally.place;
        match request::write_fill(bases::HEAD, bases::file(length), &map, place, &mut target) {
            Ok(written) => {
                if tally.frames < 2 {
                    println!(rt;
                        "request from {place}: holes {}, end {}",
                        written.count, written.end
                    )?;
                }
                tally = tally.with(written, made::sum(&target));
            }
            Err(reason) => {
                return println!(rt; "{tally}, then {} from {place}", Refused(reason));
            }
        }
    }
    println!(rt; "{tally}, and not refused yet")
}
