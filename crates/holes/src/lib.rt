// Holes (01, "Reception"): the longest runs of positions that are not held, listed.
//
// Listing answers a hole, or one numbered reason in the order that its comment gives, and changes nothing. Its
// contract cites `specs/Listing.antt`; what a hole is stands in `specs/Holes.antt`, that every hole is listed
// once in `proofs/HoleLaws.antt`.
//
// Kept: a map and a place are two parameters, since the one is what is held and the other what is asked.
#![tactic(auto)]

ghost use Rattle.std.specs.Prelude.{◌≡◌, not, ◌&&◌};
ghost use Rattle.positions.specs.Map.{held};
ghost use Rattle.reason.specs.Answer.{answer_of};
ghost use Rattle.holes.specs.Holes.{held_before, hole_start};
ghost use Rattle.holes.specs.Listing.{listing};

use positions::Side;
use reason::Reason;

// A hole: its first position, and how many positions it has.
#[derive(Clone, Copy, Debug, PartialEq, Eq)]
pub struct Hole {
    pub start: u32,
    pub length: u32,
}

// Whether a hole that starts earlier goes on at the place.
fn goes_on(map: &[u8], place: u32) -> bool
    ensures { result ≡ (not (held_before map.now place) && not (held map.now place)) }
{
    let at = place as usize;
    at > 0 && !positions::is_held(map, at - 1) && !positions::is_held(map, at)
}

// The first position from the place on and below n where a hole starts; where there is none, one that is not
// below n. Where no hole goes on, it is the first unheld position.
fn hole_start(map: &[u8], place: u32, n: u32) -> u32
    ensures { result ≡ hole_start n map.now place }
{
    if !goes_on(map, place) {
        return positions::first_on(map, Side::Unheld, place, n);
    }
    let past = positions::first_on(map, Side::Held, place, n);
    positions::first_on(map, Side::Unheld, past, n)
}

// The first hole that starts at the place or later; refuses 7, 12 (the map's), 15. Asked from 0 and then
// each time from the end of the last hole, until 15, it lists every hole once.
pub fn list(length: u32, map: &[u8], place: u32) -> Result<Hole, Reason>
    ensures { answer_of result ≡ listing length map.now place }
{
    if reception::wrong_length(length) {
        return Err(Reason::Size);
    }
    if reception::short_map(length, map) {
        return Err(Reason::Space);
    }
    let start = hole_start(map, place, length);
    if length <= start {
        return Err(Reason::NoHole);
    }
    let end = positions::first_on(map, Side::Held, start, length);
    Ok(Hole {
        start,
        length: end - start,
    })
}
