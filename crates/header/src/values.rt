// What a header's bytes say once its items are noted: the values of its items, the sum of its bytes,
// and whether they agree.
ghost use Rattle.std.specs.Prelude.{◌≡◌, [], ◌∷◌, ◌+◌, ◌%◌, ◌≤◌, length, sum};
ghost use Rattle.octets.specs.Runs.{put_in};
ghost use Rattle.header.specs.Header.{begins_right, values_agree, upload_by, values_by};
ghost use Rattle.header.specs.Notes.{counts, starts};

use super::notes::{Note, Notes};
use super::{Header, Meaning};

// Whether s begins with AA 55.
pub(crate) fn begins(s: &[u8]) -> bool
    ensures { result ≡ begins_right s.now }
{
    octets::byte(s, 0) == 0xAA && octets::byte(s, 1) == 0x55
}

// The values of the items whose data start at the noted places.
#[tactic(auto, unfolding(crate::specs::Items::decision_of, crate::specs::Items::known_items, crate::specs::Items::mandatory_items))]
pub(crate) fn values(s: &[u8], notes: &Notes) -> Header
    ensures { result ≡ values_by (counts notes.now.notes) (starts notes.now.notes) notes.now.end s.now }
{
    Header {
        number: octets::number::<4>(s, notes.of(Meaning::FileNumber).start) as u32,
        name: octets::array(s, notes.of(Meaning::FileName).start),
        extension: octets::array(s, notes.of(Meaning::FileExtension).start),
        length: octets::number::<4>(s, notes.of(Meaning::FileLength).start) as u32,
        created: octets::number::<4>(s, notes.of(Meaning::CreationTime).start) as u32,
        modified: octets::number::<4>(s, notes.of(Meaning::ModificationTime).start) as u32,
        upset: octets::byte(s, notes.of(Meaning::UpsetFlag).start),
        kind: octets::byte(s, notes.of(Meaning::FileType).start),
        bodysum: octets::number::<2>(s, notes.of(Meaning::BodySum).start) as u16,
        headersum: octets::number::<2>(s, notes.of(Meaning::HeaderSum).start) as u16,
        body: octets::number::<2>(s, notes.of(Meaning::BodyOffset).start) as u16,
        upload: upload(s, notes.of(Meaning::UploadTime)),
        size: notes.end,
    }
}

// The sum of all bytes of s modulo 65,536, with the two bytes from a place on taken as 0.
pub(crate) fn sum_but(s: &[u8], at: usize) -> u16
    requires { at + 2 ≤ length s.now }
    ensures { result ≡ sum (put_in s.now at (0 ∷ 0 ∷ [])) % 65536 }
{
    let behind = at + 2;
    sum_all(&s[..at]).wrapping_add(sum_all(&s[behind..]))
}

// Whether item 0A is the sum, item 01 the number, and item 0B at least the header's length and at most
// item 04.
pub(crate) fn agree(h: Header, sum: u16, number: u32) -> bool
    ensures { result ≡ values_agree h sum number }
{
    h.headersum == sum
        && h.number == number
        && h.size <= usize::from(h.body)
        && u32::from(h.body) <= h.length
}

// Item 12's time where it is noted.
fn upload(s: &[u8], note: Note) -> Option<u32>
    ensures { result ≡ upload_by note.count note.start s.now }
{
    (note.count > 0).then(|| octets::number::<4>(s, note.start) as u32)
}

// The sum of all bytes of s modulo 65,536.
fn sum_all(s: &[u8]) -> u16
    ensures { result ≡ sum s.now % 65536 }
{
    s.iter()
        .fold(0, |sum: u16, b| sum.wrapping_add(u16::from(*b)))
}
