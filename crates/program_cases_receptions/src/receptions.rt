// Receptions by the numbers of a case: opened, joined and listed by the station (01, "Reception").
use program_tools::cases::{Case, UNTOLD};
use program_tools::made;

// The buffer of the second reception: the first 26 bytes of the file, of which one can be another, and 5A.
fn second_buffer(case: &Case) -> [u8; 33000] {
    let mut buffer = [0x5A; 33000];
    octets::put(&mut buffer, 0, b"ABCDEFGHIJKLMNOPQRSTUVWXYZ");
    let [bits, _, _, _] = case.number(b'y').to_le_bytes();
    made::turn(&mut buffer, case.number(b'f') as usize, bits);
    buffer
}

// Opens: the reason, then that nothing is told, the first three bytes of the map, and how many bytes of map and buffer
// changed.
pub(crate) fn opened(case: &Case) -> [u32; 4] {
    let mut map = made::map(case.number(b'k'), case.number(b'r'));
    let mut buffer = made::buffer(case.number(b'e'));
    let reason = station::boundary::station_open(
        case.number(b'l'),
        made::lent(&mut map, case.number(b'm') as usize),
        made::lent(&mut buffer, case.number(b'b') as usize),
    );
    case.left([u32::from(reason), UNTOLD], &map, &buffer)
}

// Joins a second reception: the reason, then how many are new, the first three bytes of the map, and how many bytes of map
// and buffer changed.
pub(crate) fn joined(case: &Case) -> [u32; 4] {
    let mut map = made::map(case.number(b'k'), case.number(b'r'));
    let mut buffer = made::buffer(case.number(b'e'));
    let second_map = made::map(case.number(b'j'), case.number(b'r'));
    let second_buffer = second_buffer(case);
    let mut new = UNTOLD;
    let reason = station::boundary::station_join(
        case.number(b'n'),
        case.number(b'l'),
        made::lent(&mut map, case.number(b'm') as usize),
        made::lent(&mut buffer, case.number(b'b') as usize),
        case.number(b'q'),
        case.number(b'u'),
        made::first(&second_map, case.number(b'v') as usize),
        made::first(&second_buffer, case.number(b'w') as usize),
        &mut new,
    );
    case.left([u32::from(reason), new], &map, &buffer)
}

// Lists: the reason, then start and length of the hole.
pub(crate) fn listed(case: &Case) -> [u32; 4] {
    let map = made::map(case.number(b'k'), case.number(b'r'));
    let mut start = UNTOLD;
    let mut length = UNTOLD;
    let reason = station::boundary::station_list(
        case.number(b'l'),
        made::first(&map, case.number(b'm') as usize),
        case.number(b'e'),
        &mut start,
        &mut length,
    );
    [u32::from(reason), start, length, 0]
}
