// The information of a file piece.
ghost use Rattle.std.specs.Prelude.{◌≡◌};
ghost use Rattle.reason.specs.Answer.{answer_of};
ghost use Rattle.reason.specs.Order.{first_of};
ghost use Rattle.frame.specs.Piece.{piece_checks, piece_fields};

use super::{CHECK_LENGTH, Piece};
use ax25::Head;
use reason::Reason;

// The flags of every piece.
const FLAGS: u8 = 0x02;

// How many bytes stand before the data: flags, number, type and offset, the nine header bytes.
pub(crate) const BEFORE_DATA: usize = 9;

// How many bytes of information a piece without data has: the nine header bytes and the check.
const LEAST: usize = BEFORE_DATA + CHECK_LENGTH;

// Reads the information of a frame with the head; refuses 1, 6, 5, 7.
pub(crate) fn read(s: &[u8], head: Head) -> Result<Piece, Reason>
    ensures { answer_of result ≡ first_of (piece_checks s.now) (piece_fields head s.now) }
{
    if s.len() < LEAST {
        return Err(Reason::Short);
    }
    if !remainder::check_right(s) {
        return Err(Reason::Check);
    }
    if s[0] != FLAGS {
        return Err(Reason::Flags);
    }
    if s.len() == LEAST {
        return Err(Reason::Size);
    }
    let number = octets::number::<4>(s, 1) as u32;
    let kind = s[5];
    let offset = octets::number::<3>(s, 6) as u32;
    Ok(Piece {
        head,
        number,
        kind,
        offset,
    })
}
