// The file header (01, "File header"): AA 55, then items of id, length and data, up to the end item.
//
// A cursor steps from item to item. `read_header` walks over all items once, notes each by its meaning,
// reads the header's values by theirs, and answers them with the header's length, or reason 8; what
// follows the header in the slice is not looked at. The contracts cite `specs/Items.antt`,
// `specs/Header.antt` and `specs/Data.antt`.
// `specs/Rules.antt` says the rules as propositions, and `proofs/RulesKept.antt` that a header is
// accepted exactly if it keeps them all.
#![tactic(auto)]

mod notes;
mod values;

ghost use Rattle.std.specs.Prelude.{◌≡◌};
ghost use Rattle.reason.specs.Answer.{answer_of};
ghost use Rattle.header.specs.Items.{decision_of, allows_size, step_at};
ghost use Rattle.header.specs.Header.{read_header};
ghost use Rattle.header.specs.Data.{data_of};

use reason::Reason;

// What an item tells of its file, by its id.
#[derive(Clone, Copy, Debug, PartialEq, Eq)]
pub enum Meaning {
    End,
    FileNumber,
    FileName,
    FileExtension,
    FileLength,
    CreationTime,
    ModificationTime,
    UpsetFlag,
    FileType,
    BodySum,
    HeaderSum,
    BodyOffset,
    UploadTime,
    Other,
}

// How many bytes of data an item has, by its id.
// Kept beside `Option`: `None` would have to be read as "any length".
#[derive(Clone, Copy, Debug, PartialEq, Eq)]
pub enum Size {
    Exactly(usize),
    Any,
}

// The decision over an item's id: its length and its meaning.
#[derive(Clone, Copy, Debug, PartialEq, Eq)]
pub struct Decision {
    pub meaning: Meaning,
    pub size: Size,
}

// An item of a header: its id and meaning, and where its data starts and how many bytes they are.
#[derive(Clone, Copy, Debug, PartialEq, Eq)]
pub struct Item {
    pub id: u16,
    pub meaning: Meaning,
    pub start: usize,
    pub size: usize,
}

// The place in a header where an item starts.
#[derive(Clone, Copy, Debug, PartialEq, Eq)]
pub struct Cursor {
    pub at: usize,
}

// What a step finds: an item, and the cursor behind it; the end item, and the cursor behind it; or
// no whole item of a length that its id allows.
// Kept beside `Option`: `None` would be both that the items end and that they break off.
#[derive(Clone, Copy, Debug, PartialEq, Eq)]
pub enum Step {
    Found(Item, Cursor),
    Ended(Cursor),
    Broken,
}

// The id and the length of a mandatory item.
#[derive(Clone, Copy, Debug, PartialEq, Eq)]
pub struct Pair {
    pub id: u16,
    pub size: usize,
}

// The values of a header's items, in their order 01 to 0B and then 12: the file's number, name and
// extension, its length with its header, the times of its creation and last modification, whether an upset
// was detected, its type, the sums of body and header, where the body starts, and the upload time; and
// how many bytes the header itself has.
// Kept: the upset and the type are bytes, since `read_header` accepts every byte there.
#[derive(Clone, Copy, Debug, PartialEq, Eq)]
pub struct Header {
    pub number: u32,
    pub name: [u8; 8],
    pub extension: [u8; 3],
    pub length: u32,
    pub created: u32,
    pub modified: u32,
    pub upset: u8,
    pub kind: u8,
    pub bodysum: u16,
    pub headersum: u16,
    pub body: u16,
    pub upload: Option<u32>,
    pub size: usize,
}

// The length and the meaning of an item with the id: items 01 to 0B and 12 have one length each, the
// end item has no data, and other items have any length.
#[tactic(auto, unfolding(crate::specs::Items::decision_of, crate::specs::Items::known_items, crate::specs::Items::mandatory_items))]
pub fn decide(id: u16) -> Decision
    ensures { result ≡ decision_of id }
{
    match id {
        0x00 => exactly(0, Meaning::End),
        0x01 => exactly(4, Meaning::FileNumber),
        0x02 => exactly(8, Meaning::FileName),
        0x03 => exactly(3, Meaning::FileExtension),
        0x04 => exactly(4, Meaning::FileLength),
        0x05 => exactly(4, Meaning::CreationTime),
        0x06 => exactly(4, Meaning::ModificationTime),
        0x07 => exactly(1, Meaning::UpsetFlag),
        0x08 => exactly(1, Meaning::FileType),
        0x09 => exactly(2, Meaning::BodySum),
        0x0A => exactly(2, Meaning::HeaderSum),
        0x0B => exactly(2, Meaning::BodyOffset),
        0x12 => exactly(4, Meaning::UploadTime),
        _ => Decision {
            meaning: Meaning::Other,
            size: Size::Any,
        },
    }
}

impl Cursor {
    // The cursor at the first item, behind AA 55.
    pub fn first() -> Self
        ensures { result.at ≡ 2 }
    {
        Cursor { at: 2 }
    }

    // What stands at the cursor: an item and the cursor behind it, the end item and the cursor
    // behind it, or `Broken` where the bytes run out or the id does not allow the length.
    #[tactic(auto, unfolding(crate::specs::Items::step_at, crate::specs::Items::step_with))]
    pub fn step(self, s: &[u8]) -> Step
        ensures { result ≡ step_at s.now self.at }
    {
        let at = self.at;
        if s.len() < at || s.len() - at < 3 {
            return Step::Broken;
        }
        let start = at + 3;
        let id = octets::number::<2>(s, at) as u16;
        let size = usize::from(octets::byte(s, at + 2));
        let Decision {
            meaning,
            size: allowed,
        } = decide(id);
        if !allowed.allows(size) {
            return Step::Broken;
        }
        if id == 0 {
            return Step::Ended(Cursor { at: start });
        }
        if s.len() - start < size {
            return Step::Broken;
        }
        Step::Found(
            Item {
                id,
                meaning,
                start,
                size,
            },
            Cursor { at: start + size },
        )
    }
}

// The data of the item with the id, as a part of s: of the last such item, if there are several
// before the items end or break off, and the empty part if there is none.
pub fn item_bytes(s: &[u8], id: u16) -> &[u8]
    ensures { result.now ≡ data_of id s.now }
{
    let mut start = 0;
    let mut size = 0;
    let mut cursor = Cursor::first();
    while let Step::Found(item, next) = cursor.step(s) {
        if item.id == id {
            start = item.start;
            size = item.size;
        }
        cursor = next;
    }
    &s[start..start + size]
}

// The values of the header that s starts with, of the file with the number; refuses 8 where it breaks
// a rule. What follows the header in s is not looked at.
pub fn read_header(s: &[u8], number: u32) -> Result<Header, Reason>
    ensures { answer_of result ≡ read_header s.now number }
{
    if !values::begins(s) {
        return Err(Reason::Header);
    }
    let notes = notes::walk(s).ok_or(Reason::Header)?;
    if !notes.all_once() || 1 < notes.of(Meaning::UploadTime).count {
        return Err(Reason::Header);
    }
    let header = values::values(s, &notes);
    let sum = values::sum_but(&s[..notes.end], notes.of(Meaning::HeaderSum).start);
    if !values::agree(header, sum, number) {
        return Err(Reason::Header);
    }
    Ok(header)
}

// A decision for an item that has one length.
fn exactly(size: usize, meaning: Meaning) -> Decision
    ensures { result ≡ record { meaning = meaning; size = Size.Exactly size } }
{
    Decision {
        meaning,
        size: Size::Exactly(size),
    }
}

impl Size {
    // Whether an item may have as many bytes of data.
    fn allows(self, size: usize) -> bool
        ensures { result ≡ allows_size self size }
    {
        match self {
            Size::Exactly(n) => size == n,
            Size::Any => true,
        }
    }
}
