// The boundary to a host program: receptions, their holes and their records, on numbers and byte slices.
//
// Each function returns 0, or the number of the reason, and tells its values through numbers that it was
// lent; a refusal leaves these, and every lent byte, as they were. The last three refuse nothing, and return
// what their operations answer. The contracts cite `specs/Exports.antt`.
// Kept: a number is returned and the parameters are flat, since C calls each of these through `station_c`.
ghost use Rattle.std.specs.Prelude.{◌≡◌};
ghost use Rattle.reason.specs.Answer.{answer_of};
ghost use Rattle.remainder.specs.Remainder.{remainder_of};
ghost use Rattle.reception.specs.Held.{held_of, held_count};
ghost use Rattle.station.specs.Boundary.{code};
ghost use Rattle.station.specs.Exports.{OpensOut, TakesOut, JoinsOut, ListsOut, SavesOut, LoadsOut};

use reason::Reason;
use reception::{File, Reception};

// Opens a reception, as `reception::open`: 7, 12.
pub fn station_open(length: u32, map: &mut [u8], buffer: &mut [u8]) -> u8
    ensures { OpensOut length (record { map = map.entry.now; buffer = buffer.old }) result (record { map = map.exit.now; buffer = buffer.new }) }
{
    code_of(reception::open(length, map, buffer))
}

// Takes a frame in, as `take`, and tells how many positions are newly held: the frame's reasons, then 7,
// 12, 9, 10, 11.
pub fn station_take(
    number: u32,
    length: u32,
    map: &mut [u8],
    buffer: &mut [u8],
    frame: &[u8],
    new: &mut u32,
) -> u8
    ensures { TakesOut number length frame.now (record { new = new.entry.now; map = map.old; buffer = buffer.old })
        result (record { new = new.exit.now; map = map.new; buffer = buffer.new }) }
{
    let added = taking::take(File { number, length }, map, buffer, frame);
    if let Ok(count) = added {
        *new = count;
    }
    code_of(added)
}

// Joins a second reception into a first, as `reception::join`, and tells how many positions are newly held:
// 7, 12, 9, 11.
pub fn station_join(
    number: u32,
    length: u32,
    map: &mut [u8],
    buffer: &mut [u8],
    second_number: u32,
    second_length: u32,
    second_map: &[u8],
    second_buffer: &[u8],
    new: &mut u32,
) -> u8
    ensures { JoinsOut number length
        (record { number = second_number; length = second_length; map = second_map.now; buffer = second_buffer.now })
        (record { new = new.entry.now; map = map.old; buffer = buffer.old })
        result (record { new = new.exit.now; map = map.new; buffer = buffer.new }) }
{
    let second = Reception {
        file: File {
            number: second_number,
            length: second_length,
        },
        map: second_map,
        buffer: second_buffer,
    };
    let added = reception::join(File { number, length }, map, buffer, second);
    if let Ok(count) = added {
        *new = count;
    }
    code_of(added)
}

// Lists a hole, as `holes::list`, and tells its start and its length: 7, 12, 15.
pub fn station_list(
    length: u32,
    map: &[u8],
    place: u32,
    start: &mut u32,
    hole_length: &mut u32,
) -> u8
    ensures { ListsOut length map.now place (record { start = start.entry.now; length = hole_length.old })
        result (record { start = start.exit.now; length = hole_length.new }) }
{
    let listed = holes::list(length, map, place);
    if let Ok(hole) = listed {
        *start = hole.start;
        *hole_length = hole.length;
    }
    code_of(listed)
}

// Saves a reception as a record, as `record::save`, and tells how many bytes it has: 7, 12.
pub fn station_save(
    number: u32,
    length: u32,
    map: &[u8],
    buffer: &[u8],
    target: &mut [u8],
    size: &mut usize,
) -> u8
    ensures { SavesOut (record { number = number; length = length; map = map.now; buffer = buffer.now })
        (record { size = size.entry.now; target = target.old }) result (record { size = size.exit.now; target = target.new }) }
{
    let reception = Reception {
        file: File { number, length },
        map,
        buffer,
    };
    let saved = record::save(reception, target);
    if let Ok(n) = saved {
        *size = n;
    }
    code_of(saved)
}

// Loads a record, as `record::load`, and tells the number and the length of its file: 13, 12.
pub fn station_load(
    saved: &[u8],
    map: &mut [u8],
    buffer: &mut [u8],
    number: &mut u32,
    length: &mut u32,
) -> u8
    ensures { LoadsOut saved.now
        (record { number = number.entry.now; length = length.old; map = map.old; buffer = buffer.old })
        result (record { number = number.exit.now; length = length.new; map = map.new; buffer = buffer.new }) }
{
    let loaded = record::load(saved, map, buffer);
    if let Ok(file) = loaded {
        *number = file.number;
        *length = file.length;
    }
    code_of(loaded)
}

// Whether a position of a file is held, as `reception::is_held`.
pub fn station_is_held(length: u32, map: &[u8], position: u32) -> bool
    ensures { result ≡ held_of length map.now position }
{
    reception::is_held(length, map, position)
}

// How many positions of a file are held, as `reception::count_held`.
pub fn station_count_held(length: u32, map: &[u8]) -> u32
    ensures { result ≡ held_count length map.now }
{
    reception::count_held(length, map)
}

// The remainder of all bytes, as `remainder::remainder`.
pub fn station_remainder(bytes: &[u8]) -> u16
    ensures { result ≡ remainder_of bytes.now }
{
    remainder::remainder(bytes)
}

// What is returned for an answer: 0 where it has values, which are told beside it, or the number of its reason.
pub(crate) fn code_of<T: Copy>(answered: Result<T, Reason>) -> u8
    ensures { result ≡ code (answer_of answered) }
{
    match answered {
        Ok(_) => 0,
        Err(reason) => u8::from(reason),
    }
}
