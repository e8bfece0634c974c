// Headers made from the items of the figure: with one item changed, in reverse order, and with other
// items behind them. Item 0B is the header's length and item 0A the sum.
use crate::figure;
use crate::figure::Item;
use arrayvec::ArrayVec;
use program_tools::made;
use std::alloc::AllocError;

// The most bytes that are made: the marker and the figure's items, and 519 of two items 30 and the end item.
const LARGEST: usize = 596;

// A header, or bytes of one. They allocate nothing, and there is room for all that are made: the error where there is none,
// which the functions hand on, never comes.
pub(crate) type Bytes = ArrayVec<u8, LARGEST>;

// What can stand for an item: nothing, the item itself, the item with one byte of data more or less,
// or one of its id and length whose data are zeros.
#[derive(Clone, Copy, Debug, PartialEq, Eq)]
pub(crate) enum Part {
    Nothing,
    Same,
    Longer,
    Shorter,
    Zeros,
}

// How the figure's items stand in a header: as they are, in reverse order, or with two parts for one of them.
#[derive(Clone, Copy, Debug, PartialEq, Eq)]
pub(crate) enum Items {
    Same,
    Reversed,
    Changed(Item, Part, Part),
}

// A header of the items, whose last bytes are those of `tail`: other items and the end item.
pub(crate) fn header(items: Items, tail: &[u8]) -> Result<Bytes, AllocError> {
    let open = valued(items, tail, [0; 2], [0; 2])?;
    let body = octets::bytes::<2>(open.len() as u64);
    let sum = figure::sum(&valued(items, tail, [0; 2], body)?);
    valued(items, tail, sum.to_le_bytes(), body)
}

// The same with the values of items 0A and 0B given.
fn valued(items: Items, tail: &[u8], sum: [u8; 2], body: [u8; 2]) -> Result<Bytes, AllocError> {
    let mut header = ArrayVec::new();
    header.extend(*b"\xAA\x55")?;
    let mut all = Item::ALL;
    if items == Items::Reversed {
        all.reverse();
    }
    for item in all {
        let bytes = item_bytes(item, sum, body)?;
        match items {
            Items::Changed(changed, first, second) if changed == item => {
                stand(&mut header, &bytes, first)?;
                stand(&mut header, &bytes, second)?;
            }
            _ => header.extend(bytes.iter().copied())?,
        }
    }
    header.extend(tail.iter().copied())?;
    Ok(header)
}

// An item of the figure, of items 0A and 0B with the values.
fn item_bytes(item: Item, sum: [u8; 2], body: [u8; 2]) -> Result<Bytes, AllocError> {
    let mut bytes = ArrayVec::new();
    bytes.extend(item.bytes().iter().copied())?;
    if item.id == 0x0A {
        octets::put(&mut bytes, 3, &sum);
    }
    if item.id == 0x0B {
        octets::put(&mut bytes, 3, &body);
    }
    Ok(bytes)
}

// A part that stands for an item, behind what there is of a header.
fn stand(header: &mut Bytes, item: &[u8], part: Part) -> Result<(), AllocError> {
    let size = octets::byte(item, 2);
    match part {
        Part::Nothing => Ok(()),
        Part::Same => header.extend(item.iter().copied()),
        Part::Longer => resized(header, item, size.saturating_add(1)),
        Part::Shorter => resized(header, item, size.saturating_sub(1)),
        Part::Zeros => resized(header, made::first(item, 2), size),
    }
}

// An item with n bytes of data, behind what there is of a header: zeros stand behind its own.
fn resized(header: &mut Bytes, item: &[u8], n: u8) -> Result<(), AllocError> {
    header.extend(made::first(item, 2).iter().copied())?;
    header.extend([n])?;
    let data = made::behind(item, 3).iter().copied();
    header.extend(data.chain(std::iter::repeat(0)).take(usize::from(n)))
}
