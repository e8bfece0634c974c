// Positions of a file and the map that says which are held (01, "Reception").
//
// `specs/Map.antt` says what a map's bits mean, `specs/Spans.antt` asks about positions one after the other
// (do all pass a test, how many do, which is the first). Here positions are asked for, marked, counted and
// looked for, one by one or by bytes of the map. Every function answers for every map and every position: beyond
// the map none is held.
#![tactic(auto)]

mod search;

ghost use Rattle.std.specs.Prelude.{◌≡◌, ◌||◌, ◌-◌, ◌%◌, ◌^◌, ◌<◌, length, eqb, sum_by};
ghost use Rattle.std.specs.Int.Bits.{bit_or};
ghost use Rattle.std.specs.Int.Count.{ones};
ghost use Rattle.positions.specs.Spans.{count, first};
ghost use Rattle.positions.specs.Map.{held, is_set, map_of, on_side};

// A side of a map: its held positions, or the others.
#[derive(Clone, Copy, Debug, PartialEq, Eq)]
pub enum Side {
    Held,
    Unheld,
}

// Whether a bit of a byte is set; from the eighth on none is.
pub fn is_set(b: u8, k: usize) -> bool
    ensures { result ≡ is_set b k }
{
    if 8 <= k {
        return false;
    }
    (b >> k) & 1 == 1
}

// The lowest n bits of a byte, all of it where n is 8 or more.
pub fn lowest(b: u8, n: usize) -> u8
    ensures { result ≡ b % 2 ^ n }
{
    if 8 <= n {
        return b;
    }
    b & ((1 << n) - 1)
}

// How many bits of a byte are set.
pub fn count_set(b: u8) -> u32
    ensures { result ≡ ones b }
{
    b.count_ones()
}

// Whether position p is held; beyond the map none is.
#[tactic(auto, using(crate::proofs::MapLaws::held_by, crate::proofs::MapLaws::held_past))]
pub fn is_held(map: &[u8], p: usize) -> bool
    ensures { result ≡ held map.now p }
{
    map.get(p / 8).is_some_and(|b| is_set(*b, p % 8))
}

// Position p becomes held; beyond the map nothing changes.
pub fn mark(map: &mut [u8], p: usize)
    ensures { map.new ≡ map_of (λ q. held map.old q || eqb q p) (length map.old) }
{
    if p / 8 < map.len() {
        map[p / 8] |= 1 << (p % 8);
    }
}

// How many of the first n positions are held; beyond the map none is.
pub fn count_held(map: &[u8], n: u32) -> u32
    ensures { result ≡ count (held map.now) 0 n }
{
    let whole = (n / 8) as usize;
    let last = lowest(octets::byte(map, whole), (n % 8) as usize);
    count_bytes(&map[..whole.min(map.len())]) + count_set(last)
}

// How many bits of all bytes of a map are set.
fn count_bytes(map: &[u8]) -> u32
    requires { sum_by ones map.now < 2 ^ 32 }
    ensures { result ≡ sum_by ones map.now }
{
    map.iter().map(|b| count_set(*b)).sum()
}

// The first position from `from` on and below n that is on a side of the map, beyond which none is held; where there
// is none, n (and `from` where n is not above it).
pub fn first_on(map: &[u8], side: Side, from: u32, n: u32) -> u32
    ensures { result ≡ first (on_side map.now side) from (n - from) }
{
    let end = search::end_below(map, n);
    let found = search::first_in(map, side, from as usize, end);
    if found < end {
        return found as u32;
    }
    match side {
        Side::Held => from.max(n),
        Side::Unheld => found as u32,
    }
}
