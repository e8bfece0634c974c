// Requests by the numbers of a case, written by the station (01, "Fill request").
use program_tools::cases::{Case, UNTOLD};
use program_tools::made;

// To whom a request goes, as a number: VA3SFL, of which the first character can be another, a number, and 256 times bit 7.
fn to(case: &Case) -> u64 {
    let [first, _, _, _] = case.number(b'a').to_le_bytes();
    address([first, b'A', b'3', b'S', b'F', b'L'], case.number(b'h'))
}

// From whom it comes: UOSAT5, a number, and 256 times bit 7.
fn from(case: &Case) -> u64 {
    address(*b"UOSAT5", case.number(b's'))
}

// An address as a number: six characters, and the number of its SSID and 256 times bit 7.
fn address(characters: [u8; 6], ssid: u32) -> u64 {
    let [c0, c1, c2, c3, c4, c5] = characters;
    let [number, bit7, _, _] = (ssid % 1024).to_le_bytes();
    u64::from_le_bytes([c0, c1, c2, c3, c4, c5, number, bit7])
}

// Writes a request for holes: the reason, then how many holes, the end of the last, and how many bytes of the
// target changed.
pub(crate) fn written(case: &Case) -> [u32; 4] {
    let map = made::map(case.number(b'k'), case.number(b'r'));
    let before = [0xEE; 300];
    let mut target = before;
    let mut count = UNTOLD;
    let mut end = UNTOLD;
    let reason = station::request_boundary::station_write_fill(
        to(case),
        from(case),
        case.number(b'n'),
        case.number(b'l'),
        made::first(&map, case.number(b'm') as usize),
        case.number(b'e'),
        made::lent(&mut target, case.number(b't') as usize),
        &mut count,
        &mut end,
    );
    let changed = made::changed(&target, &before);
    [u32::from(reason), count, end, changed]
}

// Writes a request for the start: the reason, then how many bytes of the target changed, and in it the file number and
// both SSID bytes, that of the destination in thousands.
pub(crate) fn started(case: &Case) -> [u32; 4] {
    let before = [0xEE; 300];
    let mut target = before;
    let reason = station::request_boundary::station_write_start(
        to(case),
        from(case),
        case.number(b'n'),
        made::lent(&mut target, case.number(b't') as usize),
    );
    let changed = made::changed(&target, &before);
    let number = octets::number::<4>(&target, 17) as u32;
    let to = octets::byte(&target, 6);
    let from = octets::byte(&target, 13);
    let ssids = u32::from(to) * 1000 + u32::from(from);
    [u32::from(reason), changed, number, ssids]
}
