// The boundary to a host program: frames and file headers, read.
//
// A function returns as those of `boundary.rt` do, and tells what it read at once, as numbers in arrays that it was lent:
// `told` has the fields of a frame in the order of their bytes, and `values` those of a file header in the order of
// its items' ids. An address is one number (`addresses.rt`), and so are a name and an extension, of their bytes, least
// significant byte first. The contracts cite `specs/FrameExports.antt`.
// Kept: a number is returned and the parameters are flat, since C calls each of these through `station_c`.
ghost use Rattle.std.specs.Prelude.{◌≡◌};
ghost use Rattle.station.specs.FrameExports.{PieceOut, EntryOut, HeaderOut, header_numbers};

use super::{addresses, boundary};
use frame::{DATA_AT, HEADER_AT};
use header::Header;

// Reads a frame as a file piece, as `frame::read_piece`, and tells destination, source, number, type, offset, and where
// the piece's bytes stand in the frame, the place of the first and how many: 1, 2, 3, 4, 7, 1, 6, 5, 7.
pub fn station_piece(frame: &[u8], told: &mut [u64; 7]) -> u8
    ensures { PieceOut frame.now told.old result told.new }
{
    let read = frame::read_piece(frame);
    if let Ok(piece) = read {
        *told = [
            addresses::address_number(piece.head.destination),
            addresses::address_number(piece.head.source),
            u64::from(piece.number),
            u64::from(piece.kind),
            u64::from(piece.offset),
            DATA_AT as u64,
            frame::piece_of(frame, read).len() as u64,
        ];
    }
    boundary::code_of(read)
}

// Reads a frame as a directory entry, as `frame::read_entry`, and tells destination, source, flags, number, offset, time
// old, time new, and where its file header stands in the frame, the place of the first byte and how many; and the
// values of that header: 1, 2, 3, 4, 7, 1, 6, 5, 14, 8.
pub fn station_entry(frame: &[u8], told: &mut [u64; 9], values: &mut [u64; 12]) -> u8
    ensures { EntryOut frame.now (record { told = told.entry.now; values = values.old })
        result (record { told = told.exit.now; values = values.new }) }
{
    let read = frame::read_entry(frame);
    if let Ok(entry) = read {
        *told = [
            addresses::address_number(entry.head.destination),
            addresses::address_number(entry.head.source),
            u64::from(entry.flags),
            u64::from(entry.number),
            u64::from(entry.offset),
            u64::from(entry.old),
            u64::from(entry.new),
            HEADER_AT as u64,
            frame::header_of(frame, read).len() as u64,
        ];
        *values = values_of(entry.header);
    }
    boundary::code_of(read)
}

// Reads the file header that the bytes start with, of the file with the number, as `header::read_header`, and tells
// how many bytes the header itself has, from AA 55 to the end item, and its values: 8. What follows the header is not
// looked at.
pub fn station_header(bytes: &[u8], number: u32, size: &mut usize, values: &mut [u64; 12]) -> u8
    ensures { HeaderOut bytes.now number (record { size = size.entry.now; values = values.old })
        result (record { size = size.exit.now; values = values.new }) }
{
    let read = header::read_header(bytes, number);
    if let Ok(header) = read {
        *size = header.size;
        *values = values_of(header);
    }
    boundary::code_of(read)
}

// The values of a file header: items 02 to 0B, the name, the extension, the whole file's length, when it was made and
// changed, upsets, type, the body's sum, the header's and the body's offset; then 1 where item 12 is present and its time,
// and 0 for both where not.
fn values_of(header: Header) -> [u64; 12]
    ensures { result ≡ header_numbers header }
{
    [
        octets::number::<8>(&header.name, 0),
        octets::number::<3>(&header.extension, 0),
        u64::from(header.length),
        u64::from(header.created),
        u64::from(header.modified),
        u64::from(header.upset),
        u64::from(header.kind),
        u64::from(header.bodysum),
        u64::from(header.headersum),
        u64::from(header.body),
        u64::from(header.upload.is_some()),
        u64::from(header.upload.unwrap_or(0)),
    ]
}
