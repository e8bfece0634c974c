// How a program reads its input: into space of its own, so that it takes as much memory for a long input as for a short one.
ghost use Rattle.std.specs.Prelude.{◌≤◌, length, take};
ghost use Rattle.std.specs.Io.KnownBytes.{Consumes};

use std::io::Read;

// Reads into the first bytes of a space, until it is full or nothing more comes; how many bytes they are. Of a reader whose
// bytes are known they are its first, in their order, and the others are left.
// Kept: `read_exact` refuses an input that is shorter than the space, and `read_to_end` takes as much memory as there is input.
pub fn read_full<R: Read>(reader: &mut R, space: &mut [u8]) -> usize
    ensures bound { result ≤ length space.new }
    ensures bytes { Consumes (R.remaining reader.old) (R.remaining reader.new) (take result space.new) }
{
    let mut n = 0;
    while n < space.len() {
        match reader.read(&mut space[n..]) {
            Ok(0) | Err(_) => break,
            Ok(more) => n += more,
        }
    }
    n
}
