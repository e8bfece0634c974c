// Frames by the length of their information, around the shortest and around 255, and the first bytes of
// one. Of entries it goes up to the figure's 99, so that of 19 to 99 bytes the header is cut to its first
// 0 to 80.
use crate::bases;
use crate::bases::Frame;
use crate::kinds::Kind;
use program_tools::made;
use program_tools::show::Answer;
use std::io;

// The lines of a kind of frame.
pub(crate) fn all(rt: &impl Print, kind: Kind) -> io::Result<()> {
    println!(rt; "Lengths: {kind}")?;
    let (below, long) = match kind {
        Kind::Piece => (13, 253..258),
        Kind::Entry => (100, 255..257),
    };
    for n in (0..below).chain(long) {
        let frame = frame(kind, n);
        println!(rt; "information {n}: {}", Answer(kind.answer(&frame)))?;
    }
    cuts(rt, kind)
}

// A frame with n bytes of information.
fn frame(kind: Kind, n: usize) -> Frame {
    match kind {
        Kind::Piece => piece(n),
        Kind::Entry => entry(n),
    }
}

// A piece with n bytes of information: zeros where there is no room for its fields and the check, which
// is 00 00 for zeros.
fn piece(n: usize) -> Frame {
    if n < 11 {
        return bases::blank(Kind::Piece, n);
    }
    bases::checked(&bases::piece(n - 11))
}

// An entry with n bytes of information: up to 99 the first bytes of the figure's with their check, and
// zeros where there is no room for the check; beyond, 255 or 256 with an item more in the header.
fn entry(n: usize) -> Frame {
    match n {
        0..2 => bases::blank(Kind::Entry, n),
        2..100 => {
            let mut frame = bases::entry();
            frame.truncate(ax25::HEAD_LENGTH + n - 2);
            bases::checked(&frame)
        }
        255 => bases::checked(&bases::longest_entry()),
        _ => bases::checked(&bases::long_entry()),
    }
}

// The lines of the first bytes of the base.
fn cuts(rt: &impl Print, kind: Kind) -> io::Result<()> {
    let base = bases::base(kind);
    for n in 0..17 {
        println!(rt; "frame {n}: {}", Answer(kind.answer(made::first(&base, n))))?;
    }
    Ok(())
}
