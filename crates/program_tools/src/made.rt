// Builders: parts of a space, a byte changed, sums and counts that the lines show, and what the cases are made of. Every
// function answers for all arguments.
ghost use Rattle.std.specs.Prelude.{◌≡◌, ◌+◌, ◌/◌, ◌++◌, take, drop};
ghost use Rattle.octets.specs.Numbers.{bytes_of};
ghost use Rattle.program_tools.specs.Made.{summed_with, sum_from, turned, changed_from, map_by, buffer_by, rubbish_at};

// The first n bytes of a space, all of them where there are not so many.
pub fn first(bytes: &[u8], n: usize) -> &[u8]
    ensures { result.now ≡ take n bytes.now }
{
    bytes.get(..n).unwrap_or(bytes)
}

// The same of a space that is lent to be written.
pub fn lent(bytes: &mut [u8], n: usize) -> &mut [u8]
    ensures { result.now ≡ take n bytes.old }
{
    if n > bytes.len() {
        return bytes;
    }
    &mut bytes[..n]
}

// A space from a place on, none of it where the place is beyond its end.
pub fn behind(bytes: &[u8], from: usize) -> &[u8]
    ensures { result.now ≡ drop from bytes.now }
{
    bytes.get(from..).unwrap_or(&[])
}

// Turns bits over in the byte at a place, where there is one.
pub fn turn(bytes: &mut [u8], at: usize, bits: u8)
    ensures { bytes.new ≡ turned bytes.old at bits }
{
    if at < bytes.len() {
        bytes[at] ^= bits;
    }
}

// The sum of bytes that the lines show: each byte and its place count.
pub fn sum(bytes: &[u8]) -> u32
    ensures { result ≡ sum_from 0 bytes.now }
{
    bytes
        .iter()
        .fold(0, |total, byte| summed(total, u32::from(*byte)))
}

// The sum with one number more.
pub fn summed(total: u32, more: u32) -> u32
    ensures { result ≡ summed_with total more }
{
    (total % 65521 * 31 + more % 65521 + 1) % 65521
}

// How many bytes differ from those that stood there before.
pub fn changed(bytes: &[u8], before: &[u8]) -> u32
    ensures { result ≡ changed_from 0 0 bytes.now before.now }
{
    let mut count = 0u32;
    for (at, byte) in bytes.iter().enumerate() {
        if *byte != octets::byte(before, at) {
            count = count.wrapping_add(1);
        }
    }
    count
}

// A map by its first three bytes, as one number, and each other byte.
pub fn map(bits: u32, rest: u32) -> [u8; 4200]
    ensures { result ≡ map_by bits rest }
{
    let [byte, ..] = rest.to_le_bytes();
    let mut map = [byte; 4200];
    octets::put(&mut map, 0, &octets::bytes::<3>(u64::from(bits)));
    map
}

// A buffer: ABCD at 0, IJ at a place, and A5 elsewhere.
pub fn buffer(place: u32) -> [u8; 33000]
    ensures { result ≡ buffer_by place }
{
    let mut buffer = [0xA5; 33000];
    octets::put(&mut buffer, 0, b"ABCD");
    octets::put(&mut buffer, place as usize, b"IJ");
    buffer
}

// The byte of rubbish at a place; rubbish of another kind has other bytes.
// Kept: a remainder and a cast, since products that wrap byte by byte say the same in four calls.
pub fn rubbish(at: usize, kind: usize) -> u8
    ensures { result ≡ rubbish_at at kind }
{
    ((at % 65536 * 157 + kind % 256 * 73 + 91) % 256) as u8
}

// How many bytes the map of a file of a length has: a bit for each position, rounded up.
pub fn map_size(l: u32) -> usize
    ensures { result ≡ (l + 7) / 8 }
{
    (l as usize).div_ceil(8)
}

// The five bytes of a hole in a request: the lowest three of its start, and two of its length.
pub fn hole(start: u32, length: u32) -> [u8; 5]
    ensures { result ≡ bytes_of 3 start ++ bytes_of 2 length }
{
    let [low, middle, high] = octets::bytes::<3>(u64::from(start));
    let [short, long] = octets::bytes::<2>(u64::from(length));
    [low, middle, high, short, long]
}
