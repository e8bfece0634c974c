// What the hole program prints (01, "Both sides of the line"), as a function on slices: the text of a record.
//
// The text is in `specs/Text.antt`: a line with the file's number, its length and how many positions are
// held, and a line for each hole; or `refused 13`.
#![tactic(auto)]

mod lines;
mod number;

ghost use Rattle.report.specs.Reporting.{Reports};

use reason::Reason;
use reception::LONGEST;

// The longest first line, with numbers of ten, five and five digits, and the longest line of a hole; there is
// at most one hole to two positions.
const FIRST_LINE: usize = 40;

const HOLE_LINE: usize = 12;

// No text is longer than this (`proofs/WholeInput.antt`, `text_fits`).
pub const LONGEST_TEXT: usize = FIRST_LINE + HOLE_LINE / 2 * (LONGEST as usize + 1);

// Writes the text of a record, or that it is refused, into the first bytes of out, and answers how many they
// are; refuses 12 where out has no room for the longest text. Every input has a text, and bytes behind a
// record are an input that is refused.
pub fn report(input: &[u8], out: &mut [u8]) -> Result<usize, Reason>
    ensures { Reports input.now out.old result out.new }
{
    if out.len() < LONGEST_TEXT {
        return Err(Reason::Space);
    }
    let read = record::read_record(input);
    Ok(match read {
        Ok(file) => lines::file_lines(file, record::map_of(input, read), out),
        Err(reason) => lines::refused_line(reason, out),
    })
}
