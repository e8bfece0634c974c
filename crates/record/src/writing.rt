// A record, written.
ghost use Rattle.std.specs.Prelude.{◌≡◌, cond, ◌∷◌, ◌++◌, ◌+◌, ◌≤◌, length};
ghost use Rattle.octets.specs.Numbers.{bytes_of};
ghost use Rattle.octets.specs.Values.{values_from};
ghost use Rattle.octets.specs.Runs.{put_in};
ghost use Rattle.positions.specs.Map.{map_size};
ghost use Rattle.reception.specs.Reception.{lent_in};
ghost use Rattle.record.specs.Record.{field, saved_map, saved_buffer, record_of, record_length};
ghost use Rattle.record.specs.Inner.{Room, byte_saved};

use super::{BEFORE_DATA, BUFFER_TAG, LENGTH_TAG, MAP_AT, MAP_TAG, NUMBER_TAG};
use reception::Reception;

// The bytes before the map: the fields of the number and of the length, and the tag and length of the map's.
fn before_map(number: u32, length: u32) -> [u8; MAP_AT]
    ensures { result ≡ field 1 (bytes_of 4 number) ++ field 2 (bytes_of 4 length) ++ 3 ∷ bytes_of 2 (map_size length) }
{
    let n = octets::bytes::<4>(u64::from(number));
    let l = octets::bytes::<4>(u64::from(length));
    let size = octets::bytes::<2>(reception::map_size(length) as u64);
    [
        NUMBER_TAG, 4, 0, n[0], n[1], n[2], n[3], LENGTH_TAG, 4, 0, l[0], l[1], l[2], l[3],
        MAP_TAG, size[0], size[1],
    ]
}

// The tag and length of the buffer's field.
fn before_buffer(length: u32) -> [u8; BEFORE_DATA]
    ensures { result ≡ 4 ∷ bytes_of 2 length }
{
    let l = octets::bytes::<2>(u64::from(length));
    [BUFFER_TAG, l[0], l[1]]
}

// Writes the map of a file of l bytes into the target from a place on, without its spare bits: only its last
// byte has any.
fn put_map(map: &[u8], l: usize, target: &mut [u8], at: usize)
    requires { (map_size l ≤ length map.now) × (at + map_size l ≤ length target.old) }
    ensures { target.new ≡ put_in target.old at (saved_map l map.now) }
{
    let i = l / 8;
    octets::put(target, at, &map[..i]);
    if i * 8 < l {
        target[at + i] = positions::lowest(map[i], l - i * 8);
    }
}

// A byte where it is held, else 0. It is masked in any case: of a choice the compiler makes a branch.
fn masked(byte: u8, is_held: bool) -> u8
    ensures { result ≡ cond is_held byte 0 }
{
    byte & (255 * (is_held as u8))
}

// Eight bytes, each as it is where its bit in a byte of the map is set, and else 0.
fn masked_eight(b: u8, eight: &[u8; 8]) -> [u8; 8]
    ensures { result ≡ values_from (byte_saved b eight.now) 0 8 }
{
    let mut saved = [0; 8];
    for (k, byte) in saved.iter_mut().enumerate() {
        *byte = masked(eight[k], positions::is_set(b, k));
    }
    saved
}

// Eight bytes as they are saved: those of a full byte are taken as they are.
fn as_saved(b: u8, eight: &[u8; 8]) -> [u8; 8]
    ensures { result ≡ values_from (byte_saved b eight.now) 0 8 }
{
    if b == 255 {
        *eight
    } else {
        masked_eight(b, eight)
    }
}

// Writes the buffer of a reception into the target from a place on, unheld bytes as zero. A map byte is looked at
// once, the last one, where it has fewer than eight positions, with zeros behind them.
fn put_buffer(reception: Reception, target: &mut [u8], at: usize)
    requires room { Room reception.file.length reception.map.now reception.buffer.now }
    requires target { at + reception.file.length ≤ length target.old }
    ensures { target.new ≡ put_in target.old at (saved_buffer reception.entry.file.length reception.entry.map.now reception.entry.buffer.now) }
{
    let l = reception.file.length as usize;
    let map = reception.map;
    let (eights, rest) = reception.buffer[..l].as_chunks::<8>();
    for (i, eight) in eights.iter().enumerate() {
        let from = at + i * 8;
        target[from..from + 8].copy_from_slice(&as_saved(map[i], eight));
    }
    if l % 8 != 0 {
        let last = as_saved(map[l / 8], &octets::array(rest, 0));
        octets::put(target, at + l / 8 * 8, &last[..rest.len()]);
    }
}

// Writes the record of a reception into the first bytes of the target.
pub(crate) fn write(reception: Reception, target: &mut [u8])
    requires room { Room reception.file.length reception.map.now reception.buffer.now }
    requires target { record_length reception.file.length ≤ length target.old }
    ensures { target.new ≡ put_in target.old 0 (record_of (lent_in reception.entry)) }
{
    let length = reception.file.length;
    let size = reception::map_size(length);
    octets::put(target, 0, &before_map(reception.file.number, length));
    put_map(reception.map, length as usize, target, MAP_AT);
    octets::put(target, MAP_AT + size, &before_buffer(length));
    put_buffer(reception, target, MAP_AT + size + BEFORE_DATA);
}
