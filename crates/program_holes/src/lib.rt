// The hole program (01, "Both sides of the line"): it reads a record from standard input and prints its file's
// number, its length and how many positions are held, and then its holes.
//
// What it prints is `report::report` of what it reads. That it is enough to read one byte more than the
// largest record has is `cut_reports_the_same` of `report`, `proofs/WholeInput.antt`, and the promise of
// `report_all` here.
#![tactic(auto)]

ghost use Rattle.std.specs.Prelude.{◌≡◌, List, ℕ, ◌≤◌, ◌<◌, length, take};
ghost use Rattle.reception.specs.Reception.{longest};
ghost use Rattle.record.specs.Record.{record_length};
ghost use Rattle.report.specs.Reporting.{Reports};

use program_tools::input::read_full;
use reason::Reason;
use record::LARGEST;
use report::LONGEST_TEXT;

// One byte more than the largest record has, so that a byte too many is noticed.
const INPUT: usize = LARGEST + 1;

// Reads standard input to its end, or to one byte more than the largest record has, and writes the text of
// it to standard output, both in large blocks.
pub fn run(rt: &(impl Input + Print)) {
    let mut input = [0; INPUT];
    let n = read_full(&mut rt.reader(), &mut input);
    let mut text = [0; LONGEST_TEXT];
    if let Ok(size) = report_all(&input, n, &mut text) {
        // Where standard output is closed there is nobody to tell.
        let _ = rt.write_all(&text[..size]);
    }
}

// Writes the text of a whole input, of which the first bytes were read: as many as there is space for, or all of
// it, n bytes. The space is larger than the largest record, so the rest of the input does not matter.
fn report_all(space: &[u8], n: usize, text: &mut [u8]) -> Result<usize, Reason>
    requires { (record_length longest < length space.now) × (n ≤ length space.now) }
    ensures { (input : List ℕ) → take (length space.now) input ≡ take n space.now → Reports input text.old result text.new }
{
    report::report(&space[..n], text)
}
