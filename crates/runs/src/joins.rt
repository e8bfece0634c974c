// Joining a second reception into a first: whether they agree, and the second's positions copied.
//
// Kept: the positions of a map byte are two numbers, `from` and `end`, since a value of both would be taken apart again in each line
// that uses them (`[from..end]`, `from / 8`).
ghost use Rattle.std.specs.Prelude.{◌≡◌, ◌&&◌, not, ◌+◌, ◌-◌, ◌%◌, ◌*◌, ◌≤◌, ◌<◌, length};
ghost use Rattle.positions.specs.Spans.{every};
ghost use Rattle.positions.specs.Map.{held};
ghost use Rattle.runs.specs.Offers.{held_in, agrees};
ghost use Rattle.runs.specs.Inner.{both_agree, Within, MapRun, BufferRun};

use super::{Held, eights};

// Whether two receptions agree at each position from `from` on and below `end` that both hold. These are of one map
// byte, the first of them its first.
fn agree_byte(held: Held, second: Held, from: usize, end: usize) -> bool
    requires first { (from % 8 ≡ 0) × (from < end) × (end ≤ from + 8) }
    requires held { Within held.map.now held.buffer.now end }
    requires second { Within second.map.now second.buffer.now end }
    ensures { result ≡ every (both_agree held.entry.map.now held.entry.buffer.now second.entry.map.now second.entry.buffer.now) from (end - from) }
{
    let both = held.map[from / 8] & second.map[from / 8];
    eights::agree(both, &held.buffer[from..end], &second.buffer[from..end])
}

// Whether two receptions agree at each position of their first map bytes that both hold.
fn agree_bytes(held: Held, second: Held, bytes: usize) -> bool
    requires held { Within held.map.now held.buffer.now (bytes * 8) }
    requires second { Within second.map.now second.buffer.now (bytes * 8) }
    ensures { result ≡ every (both_agree held.entry.map.now held.entry.buffer.now second.entry.map.now second.entry.buffer.now) 0 (bytes * 8) }
{
    (0..bytes).all(|i| agree_byte(held, second, i * 8, i * 8 + 8))
}

// Whether two receptions agree at each position below n that both hold. The last map byte is looked at for itself
// where it has fewer than eight positions.
pub(crate) fn agree(held: Held, second: Held, n: usize) -> bool
    requires held { Within held.map.now held.buffer.now n }
    requires second { Within second.map.now second.buffer.now n }
    ensures { result ≡ agrees held.entry.map.now held.entry.buffer.now (held_in n second.entry.map.now second.entry.buffer.now) }
{
    agree_bytes(held, second, n / 8) && (n % 8 == 0 || agree_byte(held, second, n / 8 * 8, n))
}

// Copies what only the second reception holds of the positions from `from` on and below `end`; how many they are.
// These are of one map byte, the first of them its first.
fn add_byte(map: &mut [u8], buffer: &mut [u8], second: Held, from: usize, end: usize) -> u32
    requires first { (from % 8 ≡ 0) × (from < end) × (end ≤ from + 8) }
    requires held { Within map.old buffer.old end }
    requires second { Within second.map.now second.buffer.now end }
    ensures map_run { MapRun map.old (held second.entry.map.now) from (end - from) map.new result }
    ensures buffer_run { BufferRun (λ q. held second.entry.map.now q && not (held map.old q)) second.entry.buffer.now buffer.old from (end - from) buffer.new }
{
    let theirs = positions::lowest(second.map[from / 8], end - from);
    let new = eights::hold(map, from / 8, theirs);
    if new == 0 {
        return 0;
    }
    eights::copy(&mut buffer[from..end], &second.buffer[from..end], new);
    positions::count_set(new)
}

// Copies each position below n that only the second reception holds into the first; how many they are.
pub(crate) fn add(map: &mut [u8], buffer: &mut [u8], second: Held, n: usize) -> u32
    requires held { Within map.old buffer.old n }
    requires second { Within second.map.now second.buffer.now n }
    ensures map_run { MapRun map.old (held second.entry.map.now) 0 n map.new result }
    ensures buffer_run { BufferRun (λ q. held second.entry.map.now q && not (held map.old q)) second.entry.buffer.now buffer.old 0 n buffer.new }
{
    let mut new = 0;
    for i in 0..n / 8 {
        new += add_byte(map, buffer, second, i * 8, i * 8 + 8);
    }
    if n % 8 == 0 {
        return new;
    }
    new + add_byte(map, buffer, second, n / 8 * 8, n)
}
