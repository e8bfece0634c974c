// The search for the first position of a map that is on a side, map byte by map byte.
ghost use Rattle.std.specs.Prelude.{◌≡◌, not, ◌-◌, ◌*◌, ◌^◌, ◌≤◌, ◌<◌, min, length, eqb, position};
ghost use Rattle.positions.specs.Spans.{first};
ghost use Rattle.positions.specs.Map.{is_set, on_side};
ghost use Rattle.positions.specs.Inner.{side_of};

use super::Side;

// The byte with a bit set where the position is on the side.
fn side_of(b: u8, side: Side) -> u8
    ensures { result ≡ side_of b side }
{
    match side {
        Side::Held => b,
        Side::Unheld => !b,
    }
}

// The lowest bit of a byte that is set, 8 where none is.
#[tactic(auto, using(crate::proofs::BitLaws::lowest_of_byte))]
fn lowest_set(b: u8) -> usize
    ensures { result ≡ first (is_set b) 0 8 }
{
    b.trailing_zeros() as usize
}

// The first of some map bytes that has a position on the side: its index. The byte that has none is what `side_of` gives
// for 0. It is not put in line, so that its loop is the same short one for every search (docs/PERFORMANCE.md).
#[inline(never)]
fn first_byte(bytes: &[u8], side: Side) -> Option<usize>
    ensures { result ≡ position (λ b. not (eqb b (side_of 0 side))) bytes.now }
{
    let none = side_of(0, side);
    bytes.iter().position(|b| *b != none)
}

// The first position from `from` on and below n, in the map, that is on a side; where there is none, n (and `from` where n
// is not above it). A map byte is looked at once, and those without such a position are passed over.
pub(crate) fn first_in(map: &[u8], side: Side, from: usize, n: usize) -> usize
    requires { (n < 2 ^ 32) × (n ≤ length map.now * 8) }
    ensures { result ≡ first (on_side map.now side) from (n - from) }
{
    if n <= from {
        return from;
    }
    let k = lowest_set(side_of(map[from / 8], side) >> (from % 8));
    let found = k < 8;
    if found {
        return n.min(from + k);
    }
    let next = from / 8 + 1;
    let end = (n + 7) / 8;
    match first_byte(&map[next..end], side) {
        Some(i) => n.min((next + i) * 8 + lowest_set(side_of(map[next + i], side))),
        None => n,
    }
}

// Where the positions end that are below n and in the map: at n, or behind the last position of the map. A caller
// that has tested the same of the map pays nothing for it.
pub(crate) fn end_below(map: &[u8], n: u32) -> usize
    ensures { result ≡ min n (length map.now * 8) }
{
    let end = n as usize;
    if (end + 7) / 8 <= map.len() {
        return end;
    }
    map.len() * 8
}
