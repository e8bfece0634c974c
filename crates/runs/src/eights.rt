// The positions of one map byte: compared and copied where a bit is set, and held.
ghost use Rattle.std.specs.Prelude.{◌≡◌, ◌&&◌, not, ℕ, ◌+◌, ◌-◌, ◌*◌, ◌≤◌, ◌<◌, length};
ghost use Rattle.std.specs.Int.Count.{ones};
ghost use Rattle.positions.specs.Spans.{every};
ghost use Rattle.positions.specs.Map.{is_set, held};
ghost use Rattle.runs.specs.Inner.{same_at, bit_agrees, MapRun, BufferRun};

// Whether two runs of eight bytes are the same.
// A loop without a test in it: the compiler makes one comparison of it. Of `==` it makes two, and two complete files take 14,900 cycles
// to compare in place of 7,800.
fn same_eight(bytes: &[u8; 8], other: &[u8; 8]) -> bool
    ensures { result ≡ every (same_at bytes.now 0 other.now) 0 8 }
{
    let mut same = true;
    for k in 0..8 {
        same &= bytes[k] == other[k];
    }
    same
}

// Whether two runs have the same byte at each place whose bit is set in `asked`.
pub(crate) fn agree(asked: u8, bytes: &[u8], other: &[u8]) -> bool
    requires { (length bytes.now ≤ 8) × (length other.now ≡ length bytes.now) }
    ensures { result ≡ every (bit_agrees asked bytes.now 0 other.now 0) 0 (length bytes.now) }
{
    if asked == 0 {
        return true;
    }
    if asked == 255
        && let (Some(eight), Some(others)) = (bytes.first_chunk(), other.first_chunk())
    {
        return same_eight(eight, others);
    }
    (0..bytes.len()).all(|k| !positions::is_set(asked, k) || bytes[k] == other[k])
}

// Copies the byte at each place whose bit is set in `asked`.
pub(crate) fn copy(to: &mut [u8], from: &[u8], asked: u8)
    requires { (length to.old ≤ 8) × (length from.now ≡ length to.old) }
    ensures { BufferRun (is_set asked) from.now to.old 0 (length to.old) to.new }
{
    if asked == 255 && from.len() == 8 {
        to.copy_from_slice(from);
        return;
    }
    for (k, byte) in to.iter_mut().enumerate() {
        if positions::is_set(asked, k) {
            *byte = from[k];
        }
    }
}

// The positions of map byte i whose bit is set in `asked` become held; the bits of those that were not.
pub(crate) fn hold(map: &mut [u8], i: usize, asked: u8) -> u8
    requires { i < length map.old }
    ensures map_run { MapRun map.old (λ q. is_set asked (q - i * 8)) (i * 8) 8 map.new (ones result) }
    ensures new { (k : ℕ) → k < 8 → is_set result k ≡ (is_set asked k && not (held map.old (i * 8 + k))) }
{
    let new = asked & !map[i];
    map[i] |= asked;
    new
}
