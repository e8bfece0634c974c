// What a frame is read as, and what the library then answers and hands out.
use reason::Reason;
use std::fmt;

// A file piece or a directory entry.
#[derive(Clone, Copy, Debug, PartialEq, Eq)]
pub(crate) enum Kind {
    Piece,
    Entry,
}

impl Kind {
    pub(crate) const ALL: [Kind; 2] = [Kind::Piece, Kind::Entry];

    // The protocol of its frames.
    pub(crate) fn protocol(self) -> u8 {
        match self {
            Kind::Piece => ax25::FILE_PROTOCOL,
            Kind::Entry => ax25::DIRECTORY_PROTOCOL,
        }
    }

    // Whether a frame that is read so is accepted.
    pub(crate) fn answer(self, frame: &[u8]) -> Result<(), Reason> {
        match self {
            Kind::Piece => frame::read_piece(frame).map(|_| ()),
            Kind::Entry => frame::read_entry(frame).map(|_| ()),
        }
    }

    // The bytes that are handed out of a frame: the piece, or the entry's header.
    pub(crate) fn handed(self, frame: &[u8]) -> &[u8] {
        match self {
            Kind::Piece => frame::piece_bytes(frame),
            Kind::Entry => frame::header_bytes(frame),
        }
    }
}

impl fmt::Display for Kind {
    fn fmt<W: fmt::Write>(&self, f: &mut fmt::Formatter<W>) -> fmt::Result {
        f.write_str(match self {
            Kind::Piece => "piece",
            Kind::Entry => "entry",
        })
    }
}
