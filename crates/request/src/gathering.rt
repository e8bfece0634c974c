// The holes of a request, listed one after the other and written as bytes.
ghost use Rattle.std.specs.Prelude.{◌≡◌, ◌*◌, ◌≤◌, ◌<◌, length};
ghost use Rattle.request.specs.Request.{most_holes, bytes_per_hole, hole_bytes};
ghost use Rattle.request.specs.Inner.{Gathers};

use super::{BYTES_PER_HOLE, MOST_HOLES, Written};
use holes::Hole;
use reason::Reason;

// The five bytes of a hole.
fn bytes_of(hole: Hole) -> [u8; 5]
    requires { hole.length < 65536 }
    ensures { result ≡ hole_bytes hole }
{
    let start = octets::bytes::<3>(u64::from(hole.start));
    let size = octets::bytes::<2>(u64::from(hole.length));
    [start[0], start[1], start[2], size[0], size[1]]
}

// Lists the holes that start at the place or later, up to 49, and writes their bytes into the first bytes
// of the entries. Each hole is looked for from the end of the one before, so the map is read once. Where
// there is none it refuses as listing one does.
pub(crate) fn gather(l: u32, map: &[u8], place: u32, entries: &mut [u8]) -> Result<Written, Reason>
    requires { most_holes * bytes_per_hole ≤ length entries.old }
    ensures { Gathers l map.now place entries.old result entries.new }
{
    let mut end = place;
    for count in 0..MOST_HOLES {
        match holes::list(l, map, end) {
            Ok(hole) => {
                octets::put(entries, count as usize * BYTES_PER_HOLE, &bytes_of(hole));
                end = hole.start + hole.length;
            }
            Err(reason) if count == 0 => return Err(reason),
            Err(_) => return Ok(Written { count, end }),
        }
    }
    Ok(Written {
        count: MOST_HOLES,
        end,
    })
}
