// The information of a directory entry.
ghost use Rattle.std.specs.Prelude.{◌≡◌};
ghost use Rattle.reason.specs.Answer.{answer_of};
ghost use Rattle.reason.specs.Order.{first_of};
ghost use Rattle.frame.specs.Entry.{flags_allowed, header_whole, entry_checks, entry_fields};

use super::{CHECK_LENGTH, Entry};
use ax25::Head;
use reason::Reason;

// How many bytes stand before the file header: flags, number, offset, time old and time new.
pub(crate) const BEFORE_HEADER: usize = 17;

// How many bytes of information an entry with an empty header has: those before the header and the check.
const LEAST: usize = BEFORE_HEADER + CHECK_LENGTH;

// Reads the information of a frame with the head; refuses 1, 6, 5, 14, 8.
pub(crate) fn read(s: &[u8], head: Head) -> Result<Entry, Reason>
    ensures { answer_of result ≡ first_of (entry_checks s.now) (entry_fields head s.now) }
{
    if s.len() < LEAST {
        return Err(Reason::Short);
    }
    if !remainder::check_right(s) {
        return Err(Reason::Check);
    }
    let flags = s[0];
    if !flags_allowed(flags) {
        return Err(Reason::Flags);
    }
    let offset = octets::number::<4>(s, 5) as u32;
    if !header_whole(flags, offset) {
        return Err(Reason::NotWhole);
    }
    let number = octets::number::<4>(s, 1) as u32;
    let old = octets::number::<4>(s, 9) as u32;
    let new = octets::number::<4>(s, 13) as u32;
    let end = s.len() - CHECK_LENGTH;
    let header = header::read_header(&s[BEFORE_HEADER..end], number)?;
    if header.size != end - BEFORE_HEADER {
        return Err(Reason::Header);
    }
    Ok(Entry {
        head,
        flags,
        number,
        offset,
        old,
        new,
        header,
    })
}

// Whether no bit is set but bits 5 and 6, which are free.
fn flags_allowed(flags: u8) -> bool
    ensures { result ≡ flags_allowed flags }
{
    flags % 32 == 0 && flags / 128 == 0
}

// Whether bit 5 is set and the offset 0: the header is whole.
fn header_whole(flags: u8, offset: u32) -> bool
    ensures { result ≡ header_whole flags offset }
{
    flags / 32 % 2 == 1 && offset == 0
}
