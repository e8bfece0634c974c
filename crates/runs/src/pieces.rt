// Taking a piece in: whether it agrees with what is held, and its bytes written and its positions held.
ghost use Rattle.std.specs.Prelude.{◌≡◌, true, ◌+◌, ◌-◌, ◌*◌, ◌/◌, ◌≤◌, ◌<◌, ◌^◌, length};
ghost use Rattle.octets.specs.Runs.{put_in};
ghost use Rattle.runs.specs.Offers.{piece_at, agrees};
ghost use Rattle.runs.specs.Inner.{up_to, Within, MapRun};

use super::{Held, eights, joins};

// Where the positions of the map byte of a position that are below an end do end.
fn byte_end(p: usize, end: usize) -> usize
    requires { (p < 2 ^ 32) × (end < 2 ^ 32) }
    ensures { result ≡ up_to (p / 8 * 8) end }
{
    end.min(p / 8 * 8 + 8)
}

// Whether the piece, put at a position, agrees with every byte that is held. Behind the positions of its first map
// byte it is compared as a second reception that holds what the first does.
pub(crate) fn agree(held: Held, at: usize, piece: &[u8]) -> bool
    requires { Within held.map.now held.buffer.now (at + length piece.now) }
    ensures { result ≡ agrees held.entry.map.now held.entry.buffer.now (piece_at at piece.now) }
{
    let end = at + piece.len();
    if at == end {
        return true;
    }
    let start = byte_end(at, end);
    let (head, rest) = piece.split_at(start - at);
    if !eights::agree(held.map[at / 8] >> (at % 8), &held.buffer[at..start], head) {
        return false;
    }
    if start == end {
        return true;
    }
    let map = &held.map[start / 8..];
    let buffer = &held.buffer[start..];
    joins::agree(Held { map, buffer }, Held { map, buffer: rest }, rest.len())
}

// The positions from `from` on and below `end`, which are of one map byte, become held; how many were not.
fn hold_byte(map: &mut [u8], from: usize, end: usize) -> u32
    requires { (from < end) × (end ≤ from / 8 * 8 + 8) × (end ≤ length map.old * 8) }
    ensures { MapRun map.old (λ q. true) from (end - from) map.new result }
{
    let asked = positions::lowest(255, end - from / 8 * 8) & !positions::lowest(255, from % 8);
    let new = eights::hold(map, from / 8, asked);
    positions::count_set(new)
}

// The positions from `at` on and below `end` become held; how many were not.
fn hold(map: &mut [u8], at: usize, end: usize) -> u32
    requires { (at ≤ end) × (end < 2 ^ 32) × (end ≤ length map.old * 8) }
    ensures { MapRun map.old (λ q. true) at (end - at) map.new result }
{
    if at == end {
        return 0;
    }
    let start = byte_end(at, end);
    let mut new = hold_byte(map, at, start);
    if start == end {
        return new;
    }
    for i in start / 8..end / 8 {
        new += hold_byte(map, i * 8, i * 8 + 8);
    }
    if end % 8 == 0 {
        return new;
    }
    new + hold_byte(map, end / 8 * 8, end)
}

// Writes the bytes of a piece, and its positions become held; how many were not.
pub(crate) fn write(map: &mut [u8], buffer: &mut [u8], at: usize, piece: &[u8]) -> u32
    requires { Within map.old buffer.old (at + length piece.now) }
    ensures map_run { MapRun map.old (λ q. true) at (length piece.now) map.new result }
    ensures buffer_after { buffer.new ≡ put_in buffer.old at piece.now }
{
    let end = at + piece.len();
    octets::put(buffer, at, piece);
    hold(map, at, end)
}
