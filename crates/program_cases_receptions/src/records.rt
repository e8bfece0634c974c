// Records by the numbers of a case: saved and loaded by the station (01, "Record").
use program_tools::cases::{Case, UNTOLD};
use program_tools::made;

// Saves: the reason, then the size of the record, and how many bytes of the target changed.
pub(crate) fn saved(case: &Case) -> [u32; 4] {
    let map = made::map(case.number(b'k'), case.number(b'r'));
    let buffer = made::buffer(case.number(b'e'));
    let before = [0xEE; 37000];
    let mut target = before;
    let mut size = UNTOLD as usize;
    let reason = station::boundary::station_save(
        case.number(b'n'),
        case.number(b'l'),
        made::first(&map, case.number(b'm') as usize),
        made::first(&buffer, case.number(b'b') as usize),
        made::lent(&mut target, case.number(b't') as usize),
        &mut size,
    );
    let changed = made::changed(&target, &before);
    [u32::from(reason), (size % 65536) as u32, changed, 0]
}

// The worked record (01, "Both sides of the line"), with another number, length or map, or with bits turned
// over in one byte.
fn record(case: &Case) -> [u8; 640] {
    let mut record = [0; 640];
    octets::put(
        &mut record,
        0,
        b"\x01\x04\0\x07\0\0\0\x02\x04\0\x14\0\0\0\x03\x03\0\x0F\x03\0\x04\x14\0ABCD\0\0\0\0EF",
    );
    octets::put(&mut record, 3, &case.number(b'n').to_le_bytes());
    octets::put(&mut record, 10, &case.number(b'l').to_le_bytes());
    let map = octets::bytes::<3>(u64::from(case.number(b'k')));
    octets::put(&mut record, 17, &map);
    let [bits, _, _, _] = case.number(b'y').to_le_bytes();
    made::turn(&mut record, case.number(b'f') as usize, bits);
    record
}

// Loads: the reason, then number and length, and how many bytes of map and buffer changed.
pub(crate) fn loaded(case: &Case) -> [u32; 4] {
    let record = record(case);
    let before = [0x5A; 100];
    let mut map = before;
    let mut buffer = before;
    let mut number = UNTOLD;
    let mut length = UNTOLD;
    let reason = station::boundary::station_load(
        made::first(&record, case.number(b'z') as usize),
        made::lent(&mut map, case.number(b'm') as usize),
        made::lent(&mut buffer, case.number(b'b') as usize),
        &mut number,
        &mut length,
    );
    let changed = made::changed(&map, &before).wrapping_add(made::changed(&buffer, &before));
    [u32::from(reason), number, length, changed]
}
