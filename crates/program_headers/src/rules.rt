// The rules of a header: each broken, and what they allow.
use crate::figure::{HEADER, Item, SUM};
use crate::items::{Bytes, Items, Part};
use crate::{answers, figure, items};
use program_tools::show::Hex;
use std::alloc::AllocError;
use std::io;

// The last bytes of a header: the end item.
const END: [u8; 3] = [0, 0, 0];

// Markers of which each byte is wrong, and the two exchanged.
const MARKERS: [[u8; 2]; 3] = [[0xAB, 0x55], [0xAA, 0x54], [0x55, 0xAA]];

// A change of an item: its name, and the two parts that stand for the item.
struct Change {
    name: &'static str,
    first: Part,
    second: Part,
}

// The changes of each item: left out, twice, one byte longer or shorter, and the right one with another behind it that is
// longer or shorter.
const CHANGES: [Change; 6] = [
    Change {
        name: "left out",
        first: Part::Nothing,
        second: Part::Nothing,
    },
    Change {
        name: "twice",
        first: Part::Same,
        second: Part::Same,
    },
    Change {
        name: "longer by 1",
        first: Part::Longer,
        second: Part::Nothing,
    },
    Change {
        name: "shorter by 1",
        first: Part::Shorter,
        second: Part::Nothing,
    },
    Change {
        name: "and one longer by 1",
        first: Part::Same,
        second: Part::Longer,
    },
    Change {
        name: "and one shorter by 1",
        first: Part::Same,
        second: Part::Shorter,
    },
];

// Those of item 0A alone: of two the first or the second zeros.
const SUM_CHANGES: [Change; 2] = [
    Change {
        name: "of 0 and item 0A",
        first: Part::Zeros,
        second: Part::Same,
    },
    Change {
        name: "and item 0A of 0",
        first: Part::Same,
        second: Part::Zeros,
    },
];

// Items of other ids, which may have any length: id and length.
const OTHERS: [(u16, u8); 7] = [
    (0x0030, 0),
    (0x0030, 1),
    (0x0030, 5),
    (0x0101, 4),
    (0x010A, 2),
    (0x1200, 4),
    (0x0100, 0),
];

// The last bytes of a header: an end item of length 1, as the last item and before it; two items 30; and an item 30 that
// runs past the end, with no end item.
const TAILS: [&[u8]; 4] = [
    b"\0\0\x01\0",
    b"\0\0\x01\0\0\0\0",
    b"\x30\0\x05\0\0\0\0\0\x30\0\x05\0\0\0\0\0\0\0\0",
    b"\x30\0\x05\0\0",
];

// Another byte for each of the four bytes of item 01, which is the number.
const NUMBERS: [u8; 4] = [0x66, 0xAF, 0x01, 0x01];

// Item 0B on both sides of the header's length, 0050, and of item 04, 06E0.
const BODIES: [u16; 4] = [0x004F, 0x0050, 0x06E0, 0x06E1];

// Item 0A one too high, the plain sum of all bytes of the header, and the right sum high byte first.
const SUMS: [u16; 3] = [0x0C85, 0x0D14, 0x840C];

// All lines: headers with another marker, with other items, and with other values in their items.
pub(crate) fn all(rt: &impl Print) -> io::Result<()> {
    for marker in MARKERS {
        print!(rt; "marker{}", Hex(&marker))?;
        answers::end(rt, &figure::with(0, &marker))?;
    }
    changed(rt)?;
    others(rt)?;
    ends(rt)?;
    values(rt)?;
    large_sums(rt)
}

// Each item changed, and then item 0A in two ways more.
fn changed(rt: &impl Print) -> io::Result<()> {
    for change in &CHANGES {
        for item in Item::ALL {
            line(rt, item, change)?;
        }
    }
    for change in &SUM_CHANGES {
        line(rt, Item::ALL[10], change)?;
    }
    Ok(())
}

// The line of a change of an item.
fn line(rt: &impl Print, item: Item, change: &Change) -> io::Result<()> {
    print!(rt; "item {:02X} {}", item.id, change.name)?;
    let items = Items::Changed(item, change.first, change.second);
    answers::end(rt, &items::header(items, &END)?)
}

// Items of other ids, whose data are zeros.
fn others(rt: &impl Print) -> io::Result<()> {
    for (id, length) in OTHERS {
        print!(rt; "item {id:04X} of length {length}")?;
        let tail = other(id, length)?;
        answers::end(rt, &items::header(Items::Same, &tail)?)?;
    }
    Ok(())
}

// Such an item and the end item.
fn other(id: u16, length: u8) -> Result<Bytes, AllocError> {
    let mut tail = Bytes::new();
    tail.extend(id.to_le_bytes())?;
    tail.extend([length])?;
    tail.extend(std::iter::repeat(0).take(usize::from(length)))?;
    tail.extend(END)?;
    Ok(tail)
}

// Other last bytes behind the figure's items, and the items in reverse order.
fn ends(rt: &impl Print) -> io::Result<()> {
    for tail in TAILS {
        print!(rt; "items, then{}", Hex(tail))?;
        answers::end(rt, &items::header(Items::Same, tail)?)?;
    }
    print!(rt; "items in reverse order")?;
    answers::end(rt, &items::header(Items::Reversed, &END)?)
}

// Other values of items 01, 0B, 04 and 0A: that of item 04 is beyond 16 bits.
fn values(rt: &impl Print) -> io::Result<()> {
    for (at, byte) in NUMBERS.iter().enumerate() {
        print!(rt; "item 01 different in byte {at}")?;
        answers::end(rt, &figure::with(5 + at, &[*byte]))?;
    }
    for body in BODIES {
        print!(rt; "item 0B at {body:04X}")?;
        answers::end(rt, &figure::with(75, &body.to_le_bytes()))?;
    }
    print!(rt; "item 04 at 00010000")?;
    answers::end(rt, &figure::with(29, b"\0\0\x01\0"))?;
    for sum in SUMS {
        print!(rt; "item 0A at {sum:04X}")?;
        let mut header = HEADER;
        octets::put(&mut header, SUM, &sum.to_le_bytes());
        answers::end(rt, &header)?;
    }
    Ok(())
}

// A sum beyond 65,535, of which item 0A is the low 16 bits, and those and 1 more.
fn large_sums(rt: &impl Print) -> io::Result<()> {
    let mut header = items::header(Items::Same, &large()?)?;
    print!(rt; "sum beyond 65535")?;
    answers::end(rt, &header)?;
    octets::put(&mut header, SUM, b"\x6A\x8C");
    print!(rt; "sum beyond 65535, item 0A one more")?;
    answers::end(rt, &header)
}

// Two items 30 of 255 bytes each, FF and 80, and the end item.
fn large() -> Result<Bytes, AllocError> {
    let mut tail = Bytes::new();
    tail.extend(*b"\x30\0\xFF")?;
    tail.extend(std::iter::repeat(0xFF).take(255))?;
    tail.extend(*b"\x30\0\xFF")?;
    tail.extend(std::iter::repeat(0x80).take(255))?;
    tail.extend(END)?;
    Ok(tail)
}
