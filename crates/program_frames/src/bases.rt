// The frames that every case starts from: the directory entry of figure 3.2 and a piece of file 7,
// both from UOSAT5-11 to VA3SFL-0; and their check bytes.
use crate::kinds::Kind;
use arrayvec::ArrayVec;
use program_tools::made;

// The most bytes of a frame that is made: the 16 of its head, and 257 of information.
const LARGEST: usize = 273;

// A frame. It allocates nothing.
pub(crate) type Frame = ArrayVec<u8, LARGEST>;

// The information of figure 3.2, as the copy in document 002 has it: 17 bytes before the header, 80 of
// the header, two of the check.
const FIGURE: [u8; 99] = *b"\x20\x67\xAE\x00\x00\x00\x00\x00\x00\xE0\x7E\x3C\x38\xEE\xCF\x3D\
    \x38\xAA\x55\x01\x00\x04\x67\xAE\x00\x00\x02\x00\x08\x42\x4C\x39\
    \x39\x31\x31\x32\x34\x03\x00\x03\x20\x20\x20\x04\x00\x04\xE0\x06\
    \x00\x00\x05\x00\x04\x49\x2D\x3B\x38\x06\x00\x04\xE1\x7E\x3C\x38\
    \x12\x00\x04\xE0\x7E\x3C\x38\x07\x00\x01\x00\x08\x00\x01\xCA\x09\
    \x00\x02\xFB\x44\x0A\x00\x02\x84\x0C\x0B\x00\x02\x50\x00\x00\x00\
    \x00\x9D\x3D";

// Bytes and zeros behind them, up to a size: at most up to the largest, which no frame that is made goes beyond.
pub(crate) fn filled(bytes: &[u8], size: usize) -> Frame {
    let mut frame = Frame::from([0; LARGEST]);
    octets::put(&mut frame, 0, bytes);
    frame.truncate(size);
    frame
}

// The first 16 bytes of a frame, both addresses, 03 and the protocol, and n zeros behind them.
pub(crate) fn blank(kind: Kind, n: usize) -> Frame {
    let head = b"\xAC\x82\x66\xA6\x8C\x98\x60\xAA\x9E\xA6\x82\xA8\x6A\x77\x03";
    let mut frame = filled(head, n.saturating_add(ax25::HEAD_LENGTH));
    octets::put(&mut frame, 15, &[kind.protocol()]);
    frame
}

// A piece: flags 02, file 7, type 0, offset 0, and as data the first n bytes of the figure's
// information, over and over.
pub(crate) fn piece(n: usize) -> Frame {
    let mut frame = blank(Kind::Piece, n.saturating_add(9));
    octets::put(&mut frame, 16, b"\x02\x07");
    for (to, byte) in frame.iter_mut().skip(25).zip(FIGURE.iter().cycle()) {
        *to = *byte;
    }
    frame
}

// The entry of the figure.
pub(crate) fn entry() -> Frame {
    let mut frame = blank(Kind::Entry, 97);
    octets::put(&mut frame, 16, &FIGURE[..97]);
    frame
}

// The entry of the figure, or the piece of four bytes.
pub(crate) fn base(kind: Kind) -> Frame {
    match kind {
        Kind::Piece => piece(4),
        Kind::Entry => entry(),
    }
}

// The entry with 255 bytes of information, the most: an item 30 of 153 zeros stands before the end item, and
// items 0A and 0B are made right.
pub(crate) fn longest_entry() -> Frame {
    ending(b"\xE9\x0D\x0B\0\x02\xEC\0\x30\0\x99", 269)
}

// The same with a zero more in the item.
pub(crate) fn long_entry() -> Frame {
    ending(b"\xEB\x0D\x0B\0\x02\xED\0\x30\0\x9A", 270)
}

// The entry with a run from the data of item 0A on, and zeros up to a size.
fn ending(run: &[u8], size: usize) -> Frame {
    let mut frame = entry();
    octets::put(&mut frame, 103, run);
    filled(&frame, size)
}

// A frame's two check bytes more: the remainder of the information, high byte first.
pub(crate) fn checked(frame: &[u8]) -> Frame {
    closed(frame, 0)
}

// The same with the bits of a mask turned over.
pub(crate) fn closed(frame: &[u8], mask: u16) -> Frame {
    let check = remainder::remainder(made::behind(frame, ax25::HEAD_LENGTH)) ^ mask;
    let mut closed = filled(frame, frame.len() + 2);
    octets::put(&mut closed, frame.len(), &check.to_be_bytes());
    closed
}
