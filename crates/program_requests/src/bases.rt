// What every case starts from: to whom requests go and from whom, the file, its map, the target, and what
// the library writes.
use ax25::{Address, Head};
use program_tools::made;
use reception::File;

// To whom requests go, VA3SFL-0, and from whom they come, UOSAT5-11.
pub(crate) const HEAD: Head = Head {
    destination: Address {
        characters: *b"VA3SFL",
        number: 0,
        bit7: 0,
    },
    source: Address {
        characters: *b"UOSAT5",
        number: 11,
        bit7: 0,
    },
};

// The number of the file whose start is asked for.
pub(crate) const START: u32 = 0x01020304;

// A target before it is lent.
pub(crate) const TARGET: [u8; 300] = [0xA5; 300];

// The map of the worked request: of 20 positions 0 to 3 and 8 to 9 are held.
pub(crate) const WORKED: [u8; 3] = [0x0F, 0x03, 0x00];

// The map where every second position is held, the odd ones.
pub(crate) const ODD: [u8; 3] = [0xAA; 3];

// How many bytes the frames of the worked request and of one for the start have, and of one of 49 holes.
pub(crate) const WORKED_SIZE: usize = 33;

pub(crate) const START_SIZE: usize = 23;

pub(crate) const MOST_SIZE: usize = 268;

// The file of which holes are asked for, 7, with a length.
pub(crate) fn file(length: u32) -> File {
    File { number: 7, length }
}

// A large map by three bytes: its first, its second, and its third, which is every other too.
pub(crate) fn map(three: [u8; 3]) -> [u8; 4200] {
    let [_, _, rest] = three;
    let mut map = [rest; 4200];
    octets::put(&mut map, 0, &three);
    map
}

// The worked request: a frame of 33 bytes, and behind it 48 right holes more, of one position each: those
// up to the forty-ninth are the library's.
pub(crate) fn request() -> [u8; 300] {
    let mut space = [0; 300];
    let _ = request::write_fill(HEAD, file(32768), &map(ODD), 18, &mut space);
    octets::put(&mut space, MOST_SIZE, &made::hole(116, 1));
    let _ = request::write_fill(HEAD, file(20), &map(WORKED), 0, &mut space);
    space
}

// A request for the start: a frame of 23 bytes, and behind it the holes of the worked request and the others.
pub(crate) fn start() -> [u8; 300] {
    let mut space = request();
    let _ = request::write_start(HEAD, START, &mut space);
    space
}
