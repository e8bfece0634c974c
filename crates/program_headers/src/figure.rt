// The header of figure 3.2 and its items, as the copy in document 002 has them.
use program_tools::made;

// The number of its file.
pub(crate) const NUMBER: u32 = 0xAE67;

// The header.
pub(crate) const HEADER: [u8; 80] =
    *b"\xAA\x55\x01\x00\x04\x67\xAE\x00\x00\x02\x00\x08\x42\x4C\x39\x39\
    \x31\x31\x32\x34\x03\x00\x03\x20\x20\x20\x04\x00\x04\xE0\x06\x00\
    \x00\x05\x00\x04\x49\x2D\x3B\x38\x06\x00\x04\xE1\x7E\x3C\x38\x12\
    \x00\x04\xE0\x7E\x3C\x38\x07\x00\x01\x00\x08\x00\x01\xCA\x09\x00\
    \x02\xFB\x44\x0A\x00\x02\x84\x0C\x0B\x00\x02\x50\x00\x00\x00\x00";

// Where the data of item 0A stands.
pub(crate) const SUM: usize = 70;

// An item: its id, where it starts, and how many bytes it has with its id and its length.
#[derive(Clone, Copy, Debug, PartialEq, Eq)]
pub(crate) struct Item {
    pub(crate) id: u8,
    start: usize,
    size: usize,
}

impl Item {
    // The 12 items in their order.
    pub(crate) const ALL: [Item; 12] = [
        Item {
            id: 0x01,
            start: 2,
            size: 7,
        },
        Item {
            id: 0x02,
            start: 9,
            size: 11,
        },
        Item {
            id: 0x03,
            start: 20,
            size: 6,
        },
        Item {
            id: 0x04,
            start: 26,
            size: 7,
        },
        Item {
            id: 0x05,
            start: 33,
            size: 7,
        },
        Item {
            id: 0x06,
            start: 40,
            size: 7,
        },
        Item {
            id: 0x12,
            start: 47,
            size: 7,
        },
        Item {
            id: 0x07,
            start: 54,
            size: 4,
        },
        Item {
            id: 0x08,
            start: 58,
            size: 4,
        },
        Item {
            id: 0x09,
            start: 62,
            size: 5,
        },
        Item {
            id: 0x0A,
            start: 67,
            size: 5,
        },
        Item {
            id: 0x0B,
            start: 72,
            size: 5,
        },
    ];

    // Its bytes: id, length and data.
    pub(crate) fn bytes(self) -> &'static [u8] {
        made::first(made::behind(&HEADER, self.start), self.size)
    }
}

// The header with a run written over what stands at a place, and item 0A made right.
pub(crate) fn with(at: usize, run: &[u8]) -> [u8; 80] {
    let mut header = HEADER;
    octets::put(&mut header, at, run);
    octets::put(&mut header, SUM, &[0, 0]);
    let sum = sum(&header);
    octets::put(&mut header, SUM, &sum.to_le_bytes());
    header
}

// The sum of bytes modulo 65,536.
pub(crate) fn sum(bytes: &[u8]) -> u16 {
    bytes
        .iter()
        .fold(0u16, |sum, byte| sum.wrapping_add(u16::from(*byte)))
}
