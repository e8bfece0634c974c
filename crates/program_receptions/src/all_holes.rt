// Holes: all of them from 0 to reason 15, for every length that a file can have and maps of every
// pattern.
use crate::patterns::Pattern;
use crate::spaces::MAP;
use crate::{patterns, spaces};
use holes::Hole;
use program_tools::show::Answer;
use reason::Reason;
use std::io;

// The holes that were passed: the sums of their starts and of their ends, and the place behind the last, or the
// reason at which there were no more.
#[derive(Clone, Copy, Debug, PartialEq, Eq)]
struct Passed {
    starts: u32,
    ends: u32,
    last: Result<u32, Reason>,
}

impl Passed {
    // The holes with one more, or with the reason.
    fn with(self, listed: Result<Hole, Reason>) -> Passed {
        match listed {
            Ok(hole) => {
                let end = hole.start.wrapping_add(hole.length);
                Passed {
                    starts: self.starts.wrapping_add(hole.start),
                    ends: self.ends.wrapping_add(end),
                    last: Ok(end),
                }
            }
            Err(reason) => Passed {
                last: Err(reason),
                ..self
            },
        }
    }
}

// The lines of every length and pattern, with spare bits set or clear in turn.
pub(crate) fn all(rt: &impl Print) -> io::Result<()> {
    for (row, length) in spaces::LENGTHS[1..12].iter().enumerate() {
        for (column, pattern) in Pattern::ALL.iter().enumerate() {
            listed(rt, *length, *pattern, row % 2 != column % 2)?;
        }
    }
    Ok(())
}

// The line of a length and a pattern, with spare bits set or clear.
fn listed(rt: &impl Print, length: u32, pattern: Pattern, set: bool) -> io::Result<()> {
    let mut map = [0; MAP];
    let map = patterns::map(&mut map, MAP as u32, length, pattern, set);
    let Passed { starts, ends, last } = asked(length, map);
    let spare = if set { "set" } else { "clear" };
    print!(rt; "holes of {length} {pattern}, spare bits {spare}")?;
    println!(rt;
        ", sum of starts {starts}, sum of ends {ends}: {}",
        Answer(last)
    )
}

// All holes of a map, each asked from the end of the last, until there are no more: at every other
// position at most.
fn asked(length: u32, map: &[u8]) -> Passed {
    let mut passed = Passed {
        starts: 0,
        ends: 0,
        last: Ok(0),
    };
    for _ in 0..length / 2 + 2 {
        let Ok(place) = passed.last else {
            break;
        };
        passed = passed.with(holes::list(length, map, place));
    }
    passed
}
