// Runs of bytes under a map (01, "Reception"): compared with what is held, copied, and their positions marked.
//
// What a piece or a second reception offers is put into a map and a buffer that say what a station holds. A map
// byte with nothing to do is passed over, one with all eight positions is done at once. Every function answers
// for all that it is lent: where the positions do not lie inside the maps and buffers, those that compare answer
// false, and those that write change nothing and answer 0. The contracts cite `specs/Offers.antt`.
//
// Kept: a map and a buffer that are written are two parameters, since a struct of two `&mut` needs a clause in every
// contract that each is the same reference still. So are a piece and its place, and a reception and how many of its positions are
// asked: a value of both would be made in the one line that calls and taken apart in the first that is called.
#![tactic(auto)]

mod eights;
mod joins;
mod pieces;

ghost use Rattle.std.specs.Prelude.{◌≡◌, ◌&&◌, length};
ghost use Rattle.runs.specs.Offers.{piece_at, held_in, agrees, inside, PutsPiece, AddsHeld};

// The most positions: their count is a number of 32 bits.
const MOST: usize = u32::MAX as usize;

// A map and a buffer that are lent to be read.
#[derive(Clone, Copy, Debug, PartialEq, Eq)]
pub struct Held<'a> {
    pub map: &'a [u8],
    pub buffer: &'a [u8],
}

// Whether the n positions from a position on lie inside a map and a buffer.
fn inside(held: Held, at: usize, n: usize) -> bool
    ensures { result ≡ inside held.entry.map.now held.entry.buffer.now at n }
{
    n <= MOST
        && at <= MOST - n
        && (at + n).div_ceil(8) <= held.map.len()
        && at + n <= held.buffer.len()
}

// Whether a piece, put at a position, agrees with every byte that is held; false where it does not lie inside
// the map and the buffer.
pub fn piece_agrees(held: Held, at: usize, piece: &[u8]) -> bool
    ensures { result ≡ (inside held.entry.map.now held.entry.buffer.now at (length piece.now)
        && agrees held.entry.map.now held.entry.buffer.now (piece_at at piece.now)) }
{
    inside(held, at, piece.len()) && pieces::agree(held, at, piece)
}

// Writes the bytes of a piece from a position on, and its positions become held; how many were not. Where it
// does not lie inside the map and the buffer, nothing changes.
pub fn put_piece(map: &mut [u8], buffer: &mut [u8], at: usize, piece: &[u8]) -> u32
    ensures { PutsPiece map.old buffer.old at piece.now result map.new buffer.new }
{
    if !inside(Held { map, buffer }, at, piece.len()) {
        return 0;
    }
    pieces::write(map, buffer, at, piece)
}

// Whether two maps and buffers agree at each of the first n positions that both hold; false where these do not
// lie inside both.
pub fn both_agree(held: Held, second: Held, n: usize) -> bool
    ensures { result ≡ (inside held.entry.map.now held.entry.buffer.now 0 n && inside second.entry.map.now second.entry.buffer.now 0 n
        && agrees held.entry.map.now held.entry.buffer.now (held_in n second.entry.map.now second.entry.buffer.now)) }
{
    inside(held, 0, n) && inside(second, 0, n) && joins::agree(held, second, n)
}

// Copies each of the first n positions that only the second map holds into the first; how many they are. Where
// these do not lie inside both, nothing changes.
pub fn add_held(map: &mut [u8], buffer: &mut [u8], second: Held, n: usize) -> u32
    ensures { AddsHeld map.old buffer.old second.entry.map.now second.entry.buffer.now n result map.new buffer.new }
{
    if !inside(Held { map, buffer }, 0, n) || !inside(second, 0, n) {
        return 0;
    }
    joins::add(map, buffer, second, n)
}
