// What one walk over a header's items notes of each meaning: how many items have it, and the length and
// the start of the last one's data.
ghost use Rattle.std.specs.Prelude.{◌≡◌, ◌<◌};
ghost use Rattle.std.specs.List.{list_all};
ghost use Rattle.header.specs.Header.{mandatory, once};
ghost use Rattle.header.specs.Notes.{places, place_of, note_of, counts, sizes, Walks};

use super::{Cursor, Meaning, Pair, Step};

// How many notes there are, one for each meaning.
const PLACES: usize = 14;

// The mandatory items: id and length.
const MANDATORY: [Pair; 11] = [
    Pair { id: 0x01, size: 4 },
    Pair { id: 0x02, size: 8 },
    Pair { id: 0x03, size: 3 },
    Pair { id: 0x04, size: 4 },
    Pair { id: 0x05, size: 4 },
    Pair { id: 0x06, size: 4 },
    Pair { id: 0x07, size: 1 },
    Pair { id: 0x08, size: 1 },
    Pair { id: 0x09, size: 2 },
    Pair { id: 0x0A, size: 2 },
    Pair { id: 0x0B, size: 2 },
];

// What is noted of a meaning: how many items have it, and how many bytes the last one's data are and where
// they start.
#[derive(Clone, Copy, Debug, PartialEq, Eq)]
pub(crate) struct Note {
    pub(crate) count: usize,
    pub(crate) size: usize,
    pub(crate) start: usize,
}

// What is noted of all items: a note for each meaning, and where the items end, behind the end item.
#[derive(Clone, Copy, Debug, PartialEq, Eq)]
pub(crate) struct Notes {
    notes: [Note; PLACES],
    pub(crate) end: usize,
}

// Walks over all items of the header and notes each; `None` where they break off.
pub(crate) fn walk(s: &[u8]) -> Option<Notes>
    ensures { Walks result s.now }
{
    let mut notes = [Note {
        count: 0,
        size: 0,
        start: 0,
    }; PLACES];
    let mut cursor = Cursor::first();
    loop {
        match cursor.step(s) {
            Step::Found(item, next) => {
                let at = item.meaning.place();
                notes[at] = Note {
                    count: notes[at].count + 1,
                    size: item.size,
                    start: item.start,
                };
                cursor = next;
            }
            Step::Ended(behind) => {
                return Some(Notes {
                    notes,
                    end: behind.at,
                });
            }
            Step::Broken => return None,
        }
    }
}

impl Meaning {
    // The place of a meaning in the notes.
    fn place(self) -> usize
        ensures value { result ≡ place_of self }
        ensures upper_bound { result < places }
    {
        self as usize
    }
}

impl Notes {
    // What is noted of a meaning.
    pub(crate) fn of(&self, meaning: Meaning) -> Note
        ensures { result ≡ note_of self.now.notes meaning }
    {
        self.notes[meaning.place()]
    }

    // Whether each mandatory item was met exactly once, with its length.
    #[tactic(auto, unfolding(crate::specs::Items::mandatory_items))]
    pub(crate) fn all_once(&self) -> bool
        ensures { result ≡ list_all (once (counts self.now.notes) (sizes self.now.notes)) mandatory }
    {
        MANDATORY.iter().all(|pair| self.once(*pair))
    }

    // Whether the pair's item was met exactly once, with its length.
    fn once(&self, pair: Pair) -> bool
        ensures { result ≡ once (counts self.now.notes) (sizes self.now.notes) pair }
    {
        let decision = super::decide(pair.id);
        let note = self.of(decision.meaning);
        note.count == 1 && note.size == pair.size
    }
}
