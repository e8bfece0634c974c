// A reception of a file (01, "Reception"): what a station holds of it, in a map and a buffer that it was
// lent.
//
// A station opens a reception, takes pieces in and joins the reception of another station; the holes that
// are left are listed by `holes`. Each operation answers its values, or the first of its reasons in the order
// that its comment gives; a refusal changes no lent byte, and what lies beyond the file in the lent map and
// buffer never changes. The contracts cite `specs/Opening.antt`, `specs/Taking.antt`,
// `specs/Joining.antt` and `specs/Held.antt`; what a piece and a join leave of a file is in
// `proofs/Holding.antt` and `proofs/HoldingLaws.antt`.
#![tactic(auto)]

mod space;

ghost use Rattle.std.specs.Prelude.{◌≡◌};
ghost use Rattle.reception.specs.Reception.{lent_for, lent_in, data_in};
ghost use Rattle.reception.specs.Opening.{Opens};
ghost use Rattle.reception.specs.Taking.{Takes};
ghost use Rattle.reception.specs.Joining.{Joins};
ghost use Rattle.reception.specs.Held.{held_of, held_count};

use reason::Reason;
use runs::Held;
pub use space::{map_size, short, short_map, wrong_length};

// The longest file.
pub const LONGEST: u32 = 32768;

// A file as stations speak of it: its number, and how many bytes it has.
#[derive(Clone, Copy, Debug, PartialEq, Eq)]
pub struct File {
    pub number: u32,
    pub length: u32,
}

// The data of a piece: the number of its file, the position of its first byte, and its bytes.
#[derive(Clone, Copy, Debug, PartialEq, Eq)]
pub struct Data<'a> {
    pub number: u32,
    pub offset: u32,
    pub bytes: &'a [u8],
}

// A reception that is lent to be read: its file, and the map and the buffer that say what is held of it.
// Kept: a map and a buffer that are lent to be written are two parameters, since of a struct with two `&mut`
// every contract would also have to say that each is still the same reference.
#[derive(Clone, Copy, Debug, PartialEq, Eq)]
pub struct Reception<'a> {
    pub file: File,
    pub map: &'a [u8],
    pub buffer: &'a [u8],
}

// Opens a reception of a file of a length: clears the ceil(L/8) bytes of its map and the L bytes of its
// buffer; refuses 7, 12.
#[tactic(auto, using(crate::proofs::GivenReasons::opens_in))]
pub fn open(length: u32, map: &mut [u8], buffer: &mut [u8]) -> Result<(), Reason>
    ensures { Opens length map.old buffer.old result map.new buffer.new }
{
    space::room(length, map, buffer)?;
    space::clear(map, space::map_size(length));
    space::clear(buffer, length as usize);
    Ok(())
}

// Takes the data of a piece into the reception of a file, and answers how many positions are newly held: 0
// for a repeat; refuses 7, 12, 9, 10, 11.
pub fn take(file: File, map: &mut [u8], buffer: &mut [u8], piece: Data) -> Result<u32, Reason>
    ensures { Takes (lent_for file map.old buffer.old) (data_in piece.entry) result map.new buffer.new }
{
    space::room(file.length, map, buffer)?;
    if file.number != piece.number {
        return Err(Reason::OtherFile);
    }
    let at = piece.offset as usize;
    if (file.length as usize) < at + piece.bytes.len() {
        return Err(Reason::Beyond);
    }
    let agrees = runs::piece_agrees(Held { map, buffer }, at, piece.bytes);
    if !agrees {
        return Err(Reason::Differs);
    }
    Ok(runs::put_piece(map, buffer, at, piece.bytes))
}

// Joins a second reception into a first, and answers how many positions only the second held; refuses 7
// (either), 12 (either), 9 (number or length), 11. The second is unchanged. What opening tests is not asked of
// each in turn, since 7 of the second comes before 12 of the first.
pub fn join(file: File, map: &mut [u8], buffer: &mut [u8], second: Reception) -> Result<u32, Reason>
    ensures { Joins (lent_for file map.old buffer.old) (lent_in second.entry) result map.new buffer.new }
{
    if space::wrong_length(file.length) || space::wrong_length(second.file.length) {
        return Err(Reason::Size);
    }
    if space::short(file.length, map, buffer)
        || space::short(second.file.length, second.map, second.buffer)
    {
        return Err(Reason::Space);
    }
    if file != second.file {
        return Err(Reason::OtherFile);
    }
    let l = second.file.length as usize;
    let theirs = Held {
        map: second.map,
        buffer: second.buffer,
    };
    if !runs::both_agree(Held { map, buffer }, theirs, l) {
        return Err(Reason::Differs);
    }
    Ok(runs::add_held(map, buffer, theirs, l))
}

// Whether a position of a file of a length is held. A position that is not below the length, or beyond
// the lent map, is not.
// Kept: length and map are two parameters, here and in `count_held`, since C hands them over as they are.
pub fn is_held(length: u32, map: &[u8], position: u32) -> bool
    ensures { result ≡ held_of length map.now position }
{
    position < length && positions::is_held(map, position as usize)
}

// How many positions of a file of a length are held. Positions beyond the lent map are not.
pub fn count_held(length: u32, map: &[u8]) -> u32
    ensures { result ≡ held_count length map.now }
{
    positions::count_held(map, length)
}
