// The bytes of an item: none where there is no such item, the last one's where there are several.
use crate::figure::HEADER;
use crate::items;
use crate::items::Items;
use program_tools::show::Hex;
use std::io;

// Items 02, 03 and 30 of the figure, and item 30 of a header with two: 01 02 and 03 04 05.
pub(crate) fn all(rt: &impl Print) -> io::Result<()> {
    for id in [0x02, 0x03, 0x30] {
        item(rt, &HEADER, id)?;
    }
    let tail = b"\x30\0\x02\x01\x02\x30\0\x03\x03\x04\x05\0\0\0";
    item(rt, &items::header(Items::Same, tail)?, 0x30)
}

// The line of an item.
fn item(rt: &impl Print, header: &[u8], id: u16) -> io::Result<()> {
    let bytes = header::item_bytes(header, id);
    println!(rt; "item {id:02X}:{}", Hex(bytes))
}
