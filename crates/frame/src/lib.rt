// File pieces and directory entries (01, "Frame"): frames that a satellite broadcasts, read.
//
// `read_piece` and `read_entry` answer both addresses and all fields, or one numbered reason, in the
// order 1 (below 16), 2, 3, 4, 7 (over 255), 1 (information), 6, 5, 14, 7 (no data), 8, of which a piece
// has no 14 and 8 and an entry no 7 (no data). The piece itself and an entry's header are handed out
// as parts of the frame. The contracts cite `specs/Piece.antt` and `specs/Entry.antt`. That each reason
// is given exactly when it is first is in `proofs/InOrder.antt`, and what an accepted frame says of its
// bytes in `proofs/Says.antt`.
#![tactic(auto)]

mod entries;
mod pieces;

ghost use Rattle.std.specs.Prelude.{◌≡◌};
ghost use Rattle.reason.specs.Answer.{answer_of};
ghost use Rattle.frame.specs.Parts.{part_behind};
ghost use Rattle.frame.specs.Piece.{read_piece, piece_bytes, piece_bytes_read};
ghost use Rattle.frame.specs.Entry.{read_entry, header_bytes, header_bytes_read};

use ax25::{DIRECTORY_PROTOCOL, FILE_PROTOCOL, HEAD_LENGTH, Head};
use entries::BEFORE_HEADER;
use header::Header;
use pieces::BEFORE_DATA;
use reason::Reason;

// Where the bytes of a piece start in its frame: behind the head and the nine header bytes.
pub const DATA_AT: usize = HEAD_LENGTH + BEFORE_DATA;

// Where the file header of an entry starts in its frame: behind the head and the bytes up to time new.
pub const HEADER_AT: usize = HEAD_LENGTH + BEFORE_HEADER;

// How many check bytes stand at the end of the information.
const CHECK_LENGTH: usize = 2;

// A file piece's fields: both addresses, the file's number and type, and the place of the piece's first
// byte in the file.
// Kept: the type is a byte, since `read_piece` accepts every byte there.
#[derive(Clone, Copy, Debug, PartialEq, Eq)]
pub struct Piece {
    pub head: Head,
    pub number: u32,
    pub kind: u8,
    pub offset: u32,
}

// A directory entry's fields: both addresses, flags, the file's number, offset, time old, time new, and
// the values of the file's header.
#[derive(Clone, Copy, Debug, PartialEq, Eq)]
pub struct Entry {
    pub head: Head,
    pub flags: u8,
    pub number: u32,
    pub offset: u32,
    pub old: u32,
    pub new: u32,
    pub header: Header,
}

// Reads a frame as a file piece; refuses 1 (below 16), 2, 3, 4, 7 (over 255), 1 (information), 6, 5,
// 7 (no data).
pub fn read_piece(frame: &[u8]) -> Result<Piece, Reason>
    ensures { answer_of result ≡ read_piece frame.now }
{
    let head = ax25::read_head(frame, FILE_PROTOCOL)?;
    pieces::read(&frame[HEAD_LENGTH..], head)
}

// The piece itself: the frame's own bytes between the nine header bytes and the two check bytes. Of a
// frame that is refused it is the empty part.
pub fn piece_bytes(frame: &[u8]) -> &[u8]
    ensures { result.now ≡ piece_bytes frame.now }
{
    piece_of(frame, read_piece(frame))
}

// The same for a frame that `read_piece` has read: its answer is handed in, and the check is not worked
// out again. By the answer of another frame it hands out what stands at those places here.
pub fn piece_of(frame: &[u8], read: Result<Piece, Reason>) -> &[u8]
    ensures { result.now ≡ piece_bytes_read (answer_of read) frame.now }
{
    match read {
        Ok(_) => between(frame, DATA_AT),
        Err(_) => &[],
    }
}

// Reads a frame as a directory entry; refuses 1 (below 16), 2, 3, 4, 7 (over 255), 1 (information), 6,
// 5, 14, 8.
pub fn read_entry(frame: &[u8]) -> Result<Entry, Reason>
    ensures { answer_of result ≡ read_entry frame.now }
{
    let head = ax25::read_head(frame, DIRECTORY_PROTOCOL)?;
    entries::read(&frame[HEAD_LENGTH..], head)
}

// An entry's file header: the frame's own bytes between time new and the two check bytes, in which
// `header::item_bytes` finds an item's data. Of a frame that is refused it is the empty part.
pub fn header_bytes(frame: &[u8]) -> &[u8]
    ensures { result.now ≡ header_bytes frame.now }
{
    header_of(frame, read_entry(frame))
}

// The same for a frame that `read_entry` has read: its answer is handed in, and the frame is not read
// again. By the answer of another frame it hands out what stands at those places here.
pub fn header_of(frame: &[u8], read: Result<Entry, Reason>) -> &[u8]
    ensures { result.now ≡ header_bytes_read (answer_of read) frame.now }
{
    match read {
        Ok(_) => between(frame, HEADER_AT),
        Err(_) => &[],
    }
}

// The bytes of a frame from a place on and up to the two check bytes; none where they are not there.
fn between(frame: &[u8], at: usize) -> &[u8]
    ensures { result.now ≡ part_behind at frame.now }
{
    let end = frame.len().saturating_sub(CHECK_LENGTH);
    frame.get(at..end).unwrap_or(&[])
}
