// The boundary to a host program: receptions, their holes and their records, on numbers and byte slices.
//
// Each function returns 0, or the number of the reason, and tells its values through numbers that it was
// lent; a refusal leaves these, and every lent byte, as they were. The last three refuse nothing, and return
// what their operations answer. The contracts cite `specs/Exports.antt` of `station`.
ghost use Rattle.std.specs.Prelude.{◌≡◌};
ghost use Rattle.remainder.specs.Remainder.{remainder_of};
ghost use Rattle.reception.specs.Held.{held_of, held_count};
ghost use Rattle.station.specs.Exports.{OpensOut, TakesOut, JoinsOut, ListsOut, SavesOut, LoadsOut};

// Opens a reception, as `reception::open`: 7, 12.
#[unsafe(no_mangle)]
pub extern "C" fn station_open(length: u32, map: &mut [u8], buffer: &mut [u8]) -> u8
    ensures { OpensOut length (record { map = map.entry.now; buffer = buffer.old }) result (record { map = map.exit.now; buffer = buffer.new }) }
{
    station::boundary::station_open(length, map, buffer)
}

// Takes a frame in, as `take`, and tells how many positions are newly held: the frame's reasons, then 7,
// 12, 9, 10, 11.
#[unsafe(no_mangle)]
pub extern "C" fn station_take(
    number: u32,
    length: u32,
    map: &mut [u8],
    buffer: &mut [u8],
    frame: &[u8],
    new: &mut u32,
) -> u8
    ensures { TakesOut number length frame.now (record { new = new.entry.now; map = map.old; buffer = buffer.old })
        result (record { new = new.exit.now; map = map.new; buffer = buffer.new }) }
{
    station::boundary::station_take(number, length, map, buffer, frame, new)
}

// Joins a second reception into a first, as `reception::join`, and tells how many positions are newly held:
// 7, 12, 9, 11.
#[unsafe(no_mangle)]
pub extern "C" fn station_join(
    number: u32,
    length: u32,
    map: &mut [u8],
    buffer: &mut [u8],
    second_number: u32,
    second_length: u32,
    second_map: &[u8],
    second_buffer: &[u8],
    new: &mut u32,
) -> u8
    ensures { JoinsOut number length
        (record { number = second_number; length = second_length; map = second_map.now; buffer = second_buffer.now })
        (record { new = new.entry.now; map = map.old; buffer = buffer.old })
        result (record { new = new.exit.now; map = map.new; buffer = buffer.new }) }
{
    station::boundary::station_join(
        number,
        length,
        map,
        buffer,
        second_number,
        second_length,
        second_map,
        second_buffer,
        new,
    )
}

// Lists a hole, as `holes::list`, and tells its start and its length: 7, 12, 15.
#[unsafe(no_mangle)]
pub extern "C" fn station_list(
    length: u32,
    map: &[u8],
    place: u32,
    start: &mut u32,
    hole_length: &mut u32,
) -> u8
    ensures { ListsOut length map.now place (record { start = start.entry.now; length = hole_length.old })
        result (record { start = start.exit.now; length = hole_length.new }) }
{
    station::boundary::station_list(length, map, place, start, hole_length)
}

// Saves a reception as a record, as `record::save`, and tells how many bytes it has: 7, 12.
#[unsafe(no_mangle)]
pub extern "C" fn station_save(
    number: u32,
    length: u32,
    map: &[u8],
    buffer: &[u8],
    target: &mut [u8],
    size: &mut usize,
) -> u8
    ensures { SavesOut (record { number = number; length = length; map = map.now; buffer = buffer.now })
        (record { size = size.entry.now; target = target.old }) result (record { size = size.exit.now; target = target.new }) }
{
    station::boundary::station_save(number, length, map, buffer, target, size)
}

// Loads a record, as `record::load`, and tells the number and the length of its file: 13, 12.
#[unsafe(no_mangle)]
pub extern "C" fn station_load(
    saved: &[u8],
    map: &mut [u8],
    buffer: &mut [u8],
    number: &mut u32,
    length: &mut u32,
) -> u8
    ensures { LoadsOut saved.now
        (record { number = number.entry.now; length = length.old; map = map.old; buffer = buffer.old })
        result (record { number = number.exit.now; length = length.new; map = map.new; buffer = buffer.new }) }
{
    station::boundary::station_load(saved, map, buffer, number, length)
}

// Whether a position of a file is held, as `reception::is_held`.
#[unsafe(no_mangle)]
pub extern "C" fn station_is_held(length: u32, map: &[u8], position: u32) -> bool
    ensures { result ≡ held_of length map.now position }
{
    station::boundary::station_is_held(length, map, position)
}

// How many positions of a file are held, as `reception::count_held`.
#[unsafe(no_mangle)]
pub extern "C" fn station_count_held(length: u32, map: &[u8]) -> u32
    ensures { result ≡ held_count length map.now }
{
    station::boundary::station_count_held(length, map)
}

// The remainder of all bytes, as `remainder::remainder`.
#[unsafe(no_mangle)]
pub extern "C" fn station_remainder(bytes: &[u8]) -> u16
    ensures { result ≡ remainder_of bytes.now }
{
    station::boundary::station_remainder(bytes)
}
