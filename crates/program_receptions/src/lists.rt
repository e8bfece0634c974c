// The hole that is answered from a place: from every place of receptions of two lengths and two patterns,
// and from three places behind their ends.
use crate::patterns;
use crate::patterns::Pattern;
use crate::spaces::MAP;
use program_tools::show::Refused;
use std::io;

// The lines of two patterns, each of length 20 and of length 65.
pub(crate) fn all(rt: &impl Print) -> io::Result<()> {
    for pattern in [Pattern::Several, Pattern::Others] {
        for length in [20, 65] {
            asked(rt, length, pattern)?;
        }
    }
    Ok(())
}

// The lines of a length and a pattern, asked of a map whose spare bits are set: a hole, as its first position
// and how many it has, or the reason.
fn asked(rt: &impl Print, length: u32, pattern: Pattern) -> io::Result<()> {
    let mut map = [0; MAP];
    let map = patterns::map(&mut map, MAP as u32, length, pattern, true);
    for place in 0..length.saturating_add(3) {
        print!(rt; "list {length} {pattern} from {place}: ")?;
        match holes::list(length, map, place) {
            Ok(hole) => println!(rt; "hole at {} of {}", hole.start, hole.length)?,
            Err(reason) => println!(rt; "{}", Refused(reason))?,
        }
    }
    Ok(())
}
