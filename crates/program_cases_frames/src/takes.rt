// A piece taken into a reception by the station, by the numbers of a case (01, "Reception").
use crate::frames;
use program_tools::cases::{Case, UNTOLD};
use program_tools::made;

// Takes a piece: the reason, then how many are new, the first three bytes of the map, and how many bytes of map and buffer
// changed.
pub(crate) fn taken(case: &Case) -> [u32; 4] {
    let mut map = made::map(case.number(b'k'), case.number(b'r'));
    let mut buffer = made::buffer(case.number(b'e'));
    let mut space = [0; frames::SPACE];
    let mut new = UNTOLD;
    let reason = station::boundary::station_take(
        case.number(b'n'),
        case.number(b'l'),
        made::lent(&mut map, case.number(b'm') as usize),
        made::lent(&mut buffer, case.number(b'b') as usize),
        frames::piece(case, &mut space),
        &mut new,
    );
    case.left([u32::from(reason), new], &map, &buffer)
}
