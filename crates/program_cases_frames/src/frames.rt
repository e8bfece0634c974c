// Frames by the numbers of a case (01, "Frame"). Each is written into a space that is lent, and handed out as a part of it.
ghost use Rattle.std.specs.Prelude.{◌<◌};

use program_tools::cases::Case;
use program_tools::made;

// How many bytes of space a frame is lent.
pub(crate) const SPACE: usize = 640;

// The file of which the pieces are: the alphabet over and over.
const FILE: [u8; 286] =
    *b"ABCDEFGHIJKLMNOPQRSTUVWXYZABCDEFGHIJKLMNOPQRSTUVWXYZABCDEFGHIJKLMNOPQRSTUVWXYZ\
    ABCDEFGHIJKLMNOPQRSTUVWXYZABCDEFGHIJKLMNOPQRSTUVWXYZABCDEFGHIJKLMNOPQRSTUVWXYZ\
    ABCDEFGHIJKLMNOPQRSTUVWXYZABCDEFGHIJKLMNOPQRSTUVWXYZABCDEFGHIJKLMNOPQRSTUVWXYZ\
    ABCDEFGHIJKLMNOPQRSTUVWXYZABCDEFGHIJKLMNOPQRSTUVWXYZ";

// The lowest byte of the number of a letter.
fn byte(case: &Case, letter: u8) -> u8 {
    let [lowest, _, _, _] = case.number(letter).to_le_bytes();
    lowest
}

// Writes the head of a frame from UOSAT5-11 to VA3SFL-0, the flags and the file number.
pub(crate) fn put_head(case: &Case, space: &mut [u8]) {
    octets::put(
        space,
        0,
        b"\0\x82\x66\xA6\x8C\x98\0\xAA\x9E\xA6\x82\xA8\x6A",
    );
    octets::put(space, 0, &[byte(case, b'a')]);
    octets::put(space, 6, &[byte(case, b'h')]);
    let behind = [
        byte(case, b's'),
        byte(case, b'c'),
        byte(case, b'p'),
        byte(case, b'g'),
    ];
    octets::put(space, 13, &behind);
    octets::put(space, 17, &case.number(b'i').to_le_bytes());
}

// A piece of the file, with bits turned over in one byte of its data.
pub(crate) fn piece<'a>(case: &Case, space: &'a mut [u8]) -> &'a [u8] {
    let offset = case.number(b'o');
    put_head(case, space);
    octets::put(space, 22, &octets::bytes::<3>(u64::from(offset)));
    let data = made::behind(&FILE, (offset % 26) as usize);
    octets::put(space, 25, made::first(data, case.number(b'd') as usize));
    made::turn(
        space,
        (case.number(b'f') % 300 + 25) as usize,
        byte(case, b'y'),
    );
    closed(case, space, (case.number(b'd') % 300) as usize + 9)
}

// The directory entry of figure 3.2, with another number or offset.
pub(crate) fn entry<'a>(case: &Case, space: &'a mut [u8]) -> &'a [u8] {
    put_head(case, space);
    octets::put(space, 21, &case.number(b'o').to_le_bytes());
    octets::put(
        space,
        25,
        b"\xE0\x7E\x3C\x38\xEE\xCF\x3D\
        \x38\xAA\x55\x01\x00\x04\x67\xAE\x00\x00\x02\x00\x08\x42\x4C\x39\
        \x39\x31\x31\x32\x34\x03\x00\x03\x20\x20\x20\x04\x00\x04\xE0\x06\
        \x00\x00\x05\x00\x04\x49\x2D\x3B\x38\x06\x00\x04\xE1\x7E\x3C\x38\
        \x12\x00\x04\xE0\x7E\x3C\x38\x07\x00\x01\x00\x08\x00\x01\xCA\x09\
        \x00\x02\xFB\x44\x0A\x00\x02\x84\x0C\x0B\x00\x02\x50\x00\x00\x00\
        \x00",
    );
    closed(case, space, (case.number(b'd') % 300) as usize)
}

// A frame whose information has n bytes, with its check behind them.
fn closed<'a>(case: &Case, space: &'a mut [u8], n: usize) -> &'a [u8]
    requires { n < 400 }
{
    let right = remainder::remainder(made::first(made::behind(space, 16), n));
    let check = check(right, case.number(b'x'));
    octets::put(space, n + 16, &check.to_be_bytes());
    lent(case, space, n + 18)
}

// The check: the right one with bits turned over, or one that is given.
fn check(right: u16, x: u32) -> u16 {
    let given = (x % 65536) as u16;
    if x < 65536 { right ^ given } else { given }
}

// A frame of a size, or as many of its bytes as are lent.
pub(crate) fn lent<'a>(case: &Case, space: &'a [u8], size: usize) -> &'a [u8] {
    match case.number(b'z') {
        0 => made::first(space, size),
        z => made::first(space, (z % 1000) as usize),
    }
}
