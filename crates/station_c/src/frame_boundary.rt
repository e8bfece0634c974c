// The boundary to a host program: frames and file headers, read.
//
// A function returns as those of `boundary.rt` do, and tells what it read at once, as numbers in arrays that it was lent:
// `told` has the fields of a frame in the order of their bytes, and `values` those of a file header in the order of
// its items' ids. An address is one number (`addresses.rt` of `station`), and so are a name and an extension, of their bytes, least
// significant byte first. The contracts cite `specs/FrameExports.antt` of `station`.
ghost use Rattle.station.specs.FrameExports.{PieceOut, EntryOut, HeaderOut};

// Reads a frame as a file piece, as `frame::read_piece`, and tells destination, source, number, type, offset, and where
// the piece's bytes stand in the frame, the place of the first and how many: 1, 2, 3, 4, 7, 1, 6, 5, 7.
#[unsafe(no_mangle)]
pub extern "C" fn station_piece(frame: &[u8], told: &mut [u64; 7]) -> u8
    ensures { PieceOut frame.now told.old result told.new }
{
    station::frame_boundary::station_piece(frame, told)
}

// Reads a frame as a directory entry, as `frame::read_entry`, and tells destination, source, flags, number, offset, time
// old, time new, and where its file header stands in the frame, the place of the first byte and how many; and the
// values of that header: 1, 2, 3, 4, 7, 1, 6, 5, 14, 8.
#[unsafe(no_mangle)]
pub extern "C" fn station_entry(frame: &[u8], told: &mut [u64; 9], values: &mut [u64; 12]) -> u8
    ensures { EntryOut frame.now (record { told = told.entry.now; values = values.old })
        result (record { told = told.exit.now; values = values.new }) }
{
    station::frame_boundary::station_entry(frame, told, values)
}

// Reads the file header that the bytes start with, of the file with the number, as `header::read_header`, and tells
// how many bytes the header itself has, from AA 55 to the end item, and its values: 8. What follows the header is not
// looked at.
#[unsafe(no_mangle)]
pub extern "C" fn station_header(
    bytes: &[u8],
    number: u32,
    size: &mut usize,
    values: &mut [u64; 12],
) -> u8
    ensures { HeaderOut bytes.now number (record { size = size.entry.now; values = values.old })
        result (record { size = size.exit.now; values = values.new }) }
{
    station::frame_boundary::station_header(bytes, number, size, values)
}
