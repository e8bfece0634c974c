// What is handed out of a frame: of a piece its bytes and its fields, of an entry its header's bytes;
// of the bytes how many, the first and the last, and none of a refused frame.
use crate::faults::Fault;
use crate::kinds::Kind;
use crate::{bases, faults};
use frame::Piece;
use std::io;

// Pieces of 1, 2, 243 and 244 bytes, and refused ones.
pub(crate) fn pieces(rt: &impl Print) -> io::Result<()> {
    println!(rt; "Bytes handed out: {}", Kind::Piece)?;
    for n in [1, 2, 243, 244] {
        print!(rt; "piece of {n}")?;
        end(rt, Kind::Piece, &bases::checked(&bases::piece(n)))?;
    }
    for fault in [Fault::Check, Fault::NoData, Fault::Short] {
        refused(rt, Kind::Piece, fault)?;
    }
    Ok(())
}

// The entry of the figure, and refused ones.
pub(crate) fn entries(rt: &impl Print) -> io::Result<()> {
    println!(rt; "Bytes handed out: {}", Kind::Entry)?;
    print!(rt; "entry")?;
    end(rt, Kind::Entry, &bases::checked(&bases::entry()))?;
    for fault in [Fault::Check, Fault::Header] {
        refused(rt, Kind::Entry, fault)?;
    }
    Ok(())
}

// The line of a frame with a fault.
fn refused(rt: &impl Print, kind: Kind, fault: Fault) -> io::Result<()> {
    print!(rt; "{kind} with fault {fault}")?;
    end(rt, kind, &faults::frame(kind, faults::alone(fault)))
}

// The rest of a line: how many bytes are handed out, the first and the last.
fn end(rt: &impl Print, kind: Kind, frame: &[u8]) -> io::Result<()> {
    let handed = kind.handed(frame);
    print!(rt; ": bytes {}", handed.len())?;
    if let (Some(first), Some(last)) = (handed.first(), handed.last()) {
        print!(rt; ", first and last {first:02X} {last:02X}")?;
    }
    println!(rt)
}

// The fields of a piece of type 5 with number 01020304 and offset 060708: a heading and a line for each, and none where
// it is refused.
pub(crate) fn fields(rt: &impl Print) -> io::Result<()> {
    let mut frame = bases::piece(4);
    octets::put(&mut frame, 17, b"\x04\x03\x02\x01\x05\x08\x07\x06");
    if let Ok(piece) = frame::read_piece(&bases::checked(&frame)) {
        let Piece {
            number,
            kind,
            offset,
            ..
        } = piece;
        println!(rt; "Number, type and offset of a piece\n{number}\n{kind}\n{offset}")?;
    }
    Ok(())
}
