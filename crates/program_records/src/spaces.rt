// What the cases are made of: receptions that hold the positions of a pattern, and lent space full of
// rubbish.
use program_tools::made;
use reception::File;
use std::fmt;

// How many bytes of space there are for a map, for a buffer and for a target: more than is lent of any.
pub(crate) const MAP: usize = 8200;

pub(crate) const BUFFER: usize = 65600;

pub(crate) const TARGET: usize = 73800;

// What is held: no position, every one, every second, the first only, the last only, of every 40 a run from
// 5 to 18, and the positions of the worked record.
#[derive(Clone, Copy, Debug, PartialEq, Eq)]
pub(crate) enum Pattern {
    Nothing,
    Everything,
    Alternate,
    First,
    Last,
    Runs,
    Worked,
}

impl Pattern {
    // All but that of the worked record.
    pub(crate) const ALL: [Pattern; 6] = [
        Pattern::Nothing,
        Pattern::Everything,
        Pattern::Alternate,
        Pattern::First,
        Pattern::Last,
        Pattern::Runs,
    ];
}

// The lines show a pattern by its place in the list.
impl fmt::Display for Pattern {
    fn fmt<W: fmt::Write>(&self, f: &mut fmt::Formatter<W>) -> fmt::Result {
        write!(f, "{}", *self as u8)
    }
}

// A space that has rubbish of its own: the map and the unheld bytes of the buffer of a reception that is saved, and a map,
// a buffer and a target that are lent to be written.
#[derive(Clone, Copy, Debug, PartialEq, Eq)]
pub(crate) enum Space {
    SavedMap = 0,
    Map = 2,
    Buffer = 3,
    Target = 4,
    SavedBuffer = 5,
}

impl Space {
    // The byte of its rubbish at a place.
    fn byte(self, at: u32) -> u8 {
        made::rubbish(at as usize, self as usize)
    }

    // So many bytes of its rubbish, at the start of a space.
    pub(crate) fn rubbish(self, space: &mut [u8], size: u32) -> &mut [u8] {
        let bytes = made::lent(space, size as usize);
        for (byte, at) in bytes.iter_mut().zip(0..size) {
            *byte = self.byte(at);
        }
        bytes
    }

    // Whether it still has its rubbish from a place on.
    pub(crate) fn is_kept(self, bytes: &[u8], from: usize) -> bool {
        bytes
            .iter()
            .enumerate()
            .skip(from)
            .all(|(at, byte)| *byte == made::rubbish(at, self as usize))
    }
}

// A reception: its file, its pattern, and whether its spare bits are set.
// Kept: `set` is a flag, since it says no more than whether spare bits are set.
#[derive(Clone, Copy, Debug, PartialEq, Eq)]
pub(crate) struct Held {
    pub(crate) file: File,
    pub(crate) pattern: Pattern,
    pub(crate) set: bool,
}

impl Held {
    // Whether a position below the length is held.
    fn holds(self, p: u32) -> bool {
        match self.pattern {
            Pattern::Nothing => false,
            Pattern::Everything => true,
            Pattern::Alternate => p % 2 == 0,
            Pattern::First => p == 0,
            Pattern::Last => p.wrapping_add(1) == self.file.length,
            Pattern::Runs => (5..19).contains(&(p % 40)),
            Pattern::Worked => matches!(p, 0..=3 | 8 | 9),
        }
    }

    // The bit of the map at a position: beyond the length it is spare.
    fn bit(self, p: u32) -> bool {
        if p < self.file.length {
            self.holds(p)
        } else {
            self.set
        }
    }

    // The byte of the map whose lowest bit is that of a position: each of its eight bits is moved in at the low end.
    fn map_byte(self, first: u32) -> u8 {
        (0..8)
            .rev()
            .map(|k| self.bit(first.saturating_add(k)))
            .fold(0, |byte, bit| (byte << 1) | u8::from(bit))
    }

    // So many bytes of its map, with rubbish behind its end, at the start of a space.
    pub(crate) fn map(self, space: &mut [u8], size: u32) -> &mut [u8] {
        let map = Space::SavedMap.rubbish(space, size);
        for (byte, first) in map.iter_mut().zip((0..self.file.length).step_by(8)) {
            *byte = self.map_byte(first);
        }
        map
    }

    // So many bytes of its buffer, with rubbish where nothing is held, at the start of a space.
    pub(crate) fn buffer(self, space: &mut [u8], size: u32) -> &mut [u8] {
        let buffer = made::lent(space, size as usize);
        for (byte, p) in buffer.iter_mut().zip(0..size) {
            *byte = if p < self.file.length && self.holds(p) {
                file_byte(p)
            } else {
                Space::SavedBuffer.byte(p)
            };
        }
        buffer
    }
}

// The byte of the made-up file at a position: ABCDEFGHEF and on.
// Kept: a remainder and a cast, since this is the file's rule and no conversion.
fn file_byte(p: u32) -> u8 {
    let p = u64::from(p);
    ((p % 8 + p / 8 * 4 + p / 16 * 37 + p / 256 * 11 + 65) % 256) as u8
}

// How many bytes of a map, of a buffer and of a target are lent.
#[derive(Clone, Copy, Debug, PartialEq, Eq)]
pub(crate) struct Lent {
    pub(crate) map: u32,
    pub(crate) buffer: u32,
    pub(crate) target: u32,
}

impl Lent {
    // What a file and its record need, and so many bytes more of each.
    pub(crate) fn of(length: u32, more: u32) -> Lent {
        let map = length.div_ceil(8).saturating_add(more);
        Lent {
            map,
            buffer: length.saturating_add(more),
            target: map.saturating_add(length).saturating_add(20),
        }
    }
}
