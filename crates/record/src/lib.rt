// Records (01, "Record"): a reception saved as bytes, and loaded again.
//
// `save` writes a record with its spare bits and unheld bytes zero, and `load` takes such a record alone:
// everything else is refused 13. `read_record` says what a record says and copies nothing. The contracts
// cite `specs/Saving.antt`, `specs/Reading.antt` and `specs/Loading.antt`; that loading gives back what was
// saved, and saving what was loaded, is in `proofs/RoundTrip.antt`.
#![tactic(auto)]

mod reading;
mod writing;

ghost use Rattle.std.specs.Prelude.{◌≡◌};
ghost use Rattle.reason.specs.Answer.{answer_of};
ghost use Rattle.reception.specs.Reception.{lent_in};
ghost use Rattle.record.specs.Saving.{Saves};
ghost use Rattle.record.specs.Reading.{read_record, map_read};
ghost use Rattle.record.specs.Loading.{Loads};

use reason::Reason;
use reception::{File, LONGEST, Reception};

// The tags of the four fields.
// Kept: numbers, since a tag is only written and compared as the byte that it is, and an enum would be cast each time.
const NUMBER_TAG: u8 = 1;

const LENGTH_TAG: u8 = 2;

const MAP_TAG: u8 = 3;

const BUFFER_TAG: u8 = 4;

// How many bytes stand before the data of a field, its tag and its length, and how many bytes of data the
// fields of the number and of the length have.
const BEFORE_DATA: usize = 3;

const NUMBER_SIZE: usize = 4;

// Where the fields start in a record, and where their data stand: number, length and map. The buffer's
// field starts behind the map (`reading::buffer_at`).
const NUMBER_FIELD: usize = 0;

const NUMBER_AT: usize = NUMBER_FIELD + BEFORE_DATA;

const LENGTH_FIELD: usize = NUMBER_AT + NUMBER_SIZE;

const LENGTH_AT: usize = LENGTH_FIELD + BEFORE_DATA;

const MAP_FIELD: usize = LENGTH_AT + NUMBER_SIZE;

const MAP_AT: usize = MAP_FIELD + BEFORE_DATA;

// How many bytes the record of the longest file has: no record is larger (`proofs/RoundTrip.antt`,
// `never_larger` and `largest_is`). The hole program lends an array of one byte more where its promise asks for more
// than the largest record has.
pub const LARGEST: usize = MAP_AT + (LONGEST as usize + 7) / 8 + BEFORE_DATA + LONGEST as usize;

// Saves a reception as a record in the first bytes of the target, spare bits and unheld bytes as zero, and
// answers its size; refuses 7, 12.
pub fn save(reception: Reception, target: &mut [u8]) -> Result<usize, Reason>
    ensures { Saves (lent_in reception.entry) target.old result target.new }
{
    let length = reception.file.length;
    if reception::wrong_length(length) {
        return Err(Reason::Size);
    }
    let size = reading::record_length(length);
    if reception::short(length, reception.map, reception.buffer) || target.len() < size {
        return Err(Reason::Space);
    }
    writing::write(reception, target);
    Ok(size)
}

// Loads a record into a lent map and buffer, and answers its file; refuses 13, 12. Spare bits are cleared, and
// what lies beyond in the map and the buffer is unchanged.
pub fn load(saved: &[u8], map: &mut [u8], buffer: &mut [u8]) -> Result<File, Reason>
    ensures { Loads saved.now map.old buffer.old result map.new buffer.new }
{
    let file = read_record(saved)?;
    if reception::short(file.length, map, buffer) {
        return Err(Reason::Space);
    }
    octets::put(map, 0, reading::map_by(saved, file.length));
    octets::put(buffer, 0, reading::buffer_by(saved, file.length));
    Ok(file)
}

// The file of a record, or reason 13.
pub fn read_record(saved: &[u8]) -> Result<File, Reason>
    ensures { answer_of result ≡ read_record saved.now }
{
    if !reading::is_record(saved) {
        return Err(Reason::Record);
    }
    Ok(reading::says(saved))
}

// The map of a record that `read_record` has read: the record's own bytes. Of a record that is refused it is
// the empty part; by the answer of another record it is what stands at that place here, if it fits.
pub fn map_of(saved: &[u8], read: Result<File, Reason>) -> &[u8]
    ensures { result.now ≡ map_read (answer_of read) saved.now }
{
    match read {
        Ok(file) => reading::map_by(saved, file.length),
        Err(_) => &[],
    }
}
