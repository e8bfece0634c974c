// The lines of the text.
//
// Kept: the text and the place where it goes on are two parameters, since each writer answers the next place.
ghost use Rattle.std.specs.Prelude.{◌≡◌, false, ◌+◌, ◌≤◌, length};
ghost use Rattle.reason.specs.Reasons.{number_of};
ghost use Rattle.octets.specs.Runs.{put_in};
ghost use Rattle.positions.specs.Map.{map_size};
ghost use Rattle.reception.specs.Reception.{wrong_length};
ghost use Rattle.holes.specs.EveryHole.{listed_from};
ghost use Rattle.report.specs.Text.{file_line, hole_line, hole_lines, refused_line, file_lines, longest_text};

use crate::number;
use holes::Hole;
use reason::Reason;
use reception::File;

// Writes the first line into the first bytes of out; the place behind it.
fn file_line(file: File, held: u32, out: &mut [u8]) -> usize
    requires { length (file_line file.number file.length held) ≤ length out.old }
    ensures value { result ≡ length (file_line file.number file.length held) }
    ensures out_after { out.new ≡ put_in out.old 0 (file_line file.number file.length held) }
{
    let a = number::put_both(b"file ", file.number, out, 0);
    let b = number::put_both(b" length ", file.length, out, a);
    let c = number::put_both(b" held ", held, out, b);
    number::put_word(b"\n", out, c)
}

// Writes the line of a hole into out from a place on; the place behind it.
fn hole_line(hole: Hole, out: &mut [u8], at: usize) -> usize
    requires { at + length (hole_line hole) ≤ length out.old }
    ensures value { result ≡ at + length (hole_line hole) }
    ensures out_after { out.new ≡ put_in out.old at (hole_line hole) }
{
    let a = number::put_number(hole.start, out, at);
    let b = number::put_both(b" ", hole.length, out, a);
    number::put_word(b"\n", out, b)
}

// Writes the lines of all holes of a map into out from a place on; the place behind them. Each hole is
// looked for from the end of the one before, so the map is read once.
fn hole_lines(l: u32, map: &[u8], out: &mut [u8], from: usize) -> usize
    requires { from + length (hole_lines (listed_from l l map.now 0)) ≤ length out.old }
    ensures value { result ≡ from + length (hole_lines (listed_from l l map.now 0)) }
    ensures out_after { out.new ≡ put_in out.old from (hole_lines (listed_from l l map.now 0)) }
{
    let mut at = from;
    let mut place = 0;
    while let Ok(hole) = holes::list(l, map, place) {
        at = hole_line(hole, out, at);
        place = hole.start + hole.length;
    }
    at
}

// Writes all lines of a file into the first bytes of out; how many bytes they are.
pub(crate) fn file_lines(file: File, map: &[u8], out: &mut [u8]) -> usize
    requires { (wrong_length file.length ≡ false) × (map_size file.length ≤ length map.now) × (longest_text ≤ length out.old) }
    ensures value { result ≡ length (file_lines file.number file.length map.now) }
    ensures out_after { out.new ≡ put_in out.old 0 (file_lines file.number file.length map.now) }
{
    let held = reception::count_held(file.length, map);
    let at = file_line(file, held, out);
    hole_lines(file.length, map, out, at)
}

// Writes the line of a refusal into the first bytes of out; how many bytes it has.
pub(crate) fn refused_line(reason: Reason, out: &mut [u8]) -> usize
    requires { longest_text ≤ length out.old }
    ensures value { result ≡ length (refused_line (number_of reason)) }
    ensures out_after { out.new ≡ put_in out.old 0 (refused_line (number_of reason)) }
{
    let number = u8::from(reason);
    let at = number::put_both(b"refused ", number as u32, out, 0);
    number::put_word(b"\n", out, at)
}
