// The length of a file and the space that is lent for it.
//
// Kept: the length and each space are parameters of their own, since 7 is about the first alone and 12 about one space or both.
ghost use Rattle.std.specs.Prelude.{◌≡◌, ◌≤◌, length};
ghost use Rattle.reason.specs.Answer.{answer_of};
ghost use Rattle.positions.specs.Map.{map_size};
ghost use Rattle.reception.specs.Reception.{wrong_length, short_map, short_space};
ghost use Rattle.reception.specs.Opening.{cleared, opening};

use super::LONGEST;
use reason::Reason;

// Reason 7: whether a length is not 1 to 32,768.
pub fn wrong_length(l: u32) -> bool
    ensures { result ≡ wrong_length l }
{
    !(1..=LONGEST).contains(&l)
}

// How many bytes the map of a file of a length has: L/8, rounded up.
pub fn map_size(l: u32) -> usize
    ensures { result ≡ map_size l }
{
    (l as usize).div_ceil(8)
}

// Reason 12: whether a map is too short for a file of a length.
pub fn short_map(l: u32, map: &[u8]) -> bool
    ensures { result ≡ short_map l map.now }
{
    map.len() < map_size(l)
}

// Reason 12: whether a map or a buffer is too short for a file of a length.
pub fn short(l: u32, map: &[u8], buffer: &[u8]) -> bool
    ensures { result ≡ short_space l map.now buffer.now }
{
    short_map(l, map) || buffer.len() < (l as usize)
}

// The first two reasons of an operation: refuses 7, 12.
#[tactic(auto, unfolding(crate::specs::Opening::opening, reason::specs::Order::first_of))]
pub(crate) fn room(l: u32, map: &[u8], buffer: &[u8]) -> Result<(), Reason>
    ensures { answer_of result ≡ opening l map.now buffer.now }
{
    if wrong_length(l) {
        return Err(Reason::Size);
    }
    if short(l, map, buffer) {
        return Err(Reason::Space);
    }
    Ok(())
}

// The first n bytes become 0.
pub(crate) fn clear(bytes: &mut [u8], n: usize)
    requires { n ≤ length bytes.old }
    ensures { bytes.new ≡ cleared n bytes.old }
{
    bytes[..n].fill(0);
}
