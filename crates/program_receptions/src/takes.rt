// Taking one piece of the made-up file into a reception, and the rest of a line about it.
use crate::answers::{Added, Sums};
use crate::patterns;
use crate::spaces::PIECE;
use program_tools::made;
use reception::{Data, File};
use std::io;

// A piece for the reception of file 7: the reception's length, the piece's number, offset and size, and
// the bits that are turned over in the byte at a place of it.
#[derive(Clone, Copy, Debug, PartialEq, Eq)]
pub(crate) struct Take {
    pub(crate) length: u32,
    pub(crate) number: u32,
    pub(crate) offset: u32,
    pub(crate) size: u32,
    pub(crate) at: usize,
    pub(crate) bits: u8,
}

impl Take {
    // The bytes of the piece, at the start of a space.
    fn bytes(self, space: &mut [u8]) -> &[u8] {
        let bytes = made::lent(space, self.size as usize);
        let places = self.offset..self.offset.saturating_add(self.size);
        for (byte, p) in bytes.iter_mut().zip(places) {
            *byte = patterns::file_byte(p);
        }
        made::turn(bytes, self.at, self.bits);
        bytes
    }

    // The rest of a line: a reception takes the piece. How many positions are held is said twice: as the library
    // counts them, and asked one by one.
    pub(crate) fn answer(
        self,
        rt: &impl Print,
        map: &mut [u8],
        buffer: &mut [u8],
    ) -> io::Result<()> {
        let mut space = [0; PIECE];
        let length = self.length;
        let data = Data {
            number: self.number,
            offset: self.offset,
            bytes: self.bytes(&mut space),
        };
        let added = Added(reception::take(File { number: 7, length }, map, buffer, data));
        print!(rt; ": {added}, {}", Sums { map, buffer })?;
        println!(rt;
            ", held {} and {}",
            reception::count_held(length, map),
            each(length, map)
        )
    }
}

// How many positions are held, of all of a file and three behind its end.
fn each(length: u32, map: &[u8]) -> usize {
    (0..length % 65536 + 3)
        .filter(|p| reception::is_held(length, map, *p))
        .count()
}
