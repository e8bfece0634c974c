// Frames taken into receptions (01, "Reception" and "Numbered reasons").
//
// A frame is read as a file piece, and its piece is taken into the reception of a file. The contract cites
// `specs/Taking.antt`: the reasons of a frame come first, then those of its piece.
#![tactic(auto)]

ghost use Rattle.reception.specs.Reception.{lent_for};
ghost use Rattle.taking.specs.Taking.{TakesFrame};

use reason::Reason;
use reception::{Data, File};

// Takes a frame into the reception of a file, and answers how many positions are newly held: 0 for a repeat. It
// refuses 1 (below 16), 2, 3, 4, 7 (over 255), 1 (information), 6, 5, 7 (no data), as `read_piece`, and then
// 7 (L), 12, 9, 10, 11.
pub fn take(file: File, map: &mut [u8], buffer: &mut [u8], frame: &[u8]) -> Result<u32, Reason>
    ensures { TakesFrame (lent_for file map.old buffer.old) frame.now result map.new buffer.new }
{
    let read = frame::read_piece(frame);
    let piece = read?;
    let bytes = frame::piece_of(frame, read);
    reception::take(
        file,
        map,
        buffer,
        Data {
            number: piece.number,
            offset: piece.offset,
            bytes,
        },
    )
}
