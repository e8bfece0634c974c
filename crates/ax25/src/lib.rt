// AX.25 addresses and the head of a frame (01, "Frame"), read and written.
//
// Its contracts cite `specs/Address.antt` and `specs/Head.antt`, where the reasons stand in their
// order. That each reason is given exactly when it is first is in `proofs/InOrder.antt`; that what is
// written is read back, and what is accepted is what writing gives, in `proofs/RoundTrip.antt`. Laws
// for callers are in `proofs/SpellingLaws.antt`, `proofs/HeadLaws.antt` and `proofs/WriteLaws.antt`.
//
// Kept: a slice and a place in it are two parameters, as in `octets`.
#![tactic(auto)]

mod spelling;

ghost use Rattle.std.specs.Prelude.{◌≡◌};
ghost use Rattle.reason.specs.Answer.{answer_of, Writes};
ghost use Rattle.ax25.specs.Address.{is_writable, read_address, write_address};
ghost use Rattle.ax25.specs.Head.{read_head, write_head};

use reason::Reason;

// The bytes of a frame before its information, the most bytes of information, and the control byte.
pub const HEAD_LENGTH: usize = 16;

pub const MOST_INFORMATION: usize = 255;

pub const CONTROL: u8 = 0x03;

// The protocols: of file pieces and fill requests, and of directory entries.
// Kept: bytes and no enum, since `read_head` and `write_head` take every byte as the protocol that they are to find or to write.
pub const FILE_PROTOCOL: u8 = 0xBB;

pub const DIRECTORY_PROTOCOL: u8 = 0xBD;

// An address: a station's six characters, padded at the end with spaces, the number of its SSID, and bit 7 of the SSID byte,
// 0 or 1, which is told and written as it is and decides nothing.
// Kept: bytes for the number and the bit, since narrower types would take fewer addresses (`Cases`: `number_16`, `bit_of_2`).
#[derive(Clone, Copy, Debug, PartialEq, Eq)]
pub struct Address {
    pub characters: [u8; 6],
    pub number: u8,
    pub bit7: u8,
}

// Which of a frame's two addresses it is: bit 0 of the SSID byte tells them apart.
#[derive(Clone, Copy, Debug, PartialEq, Eq)]
pub enum Role {
    Destination = 0,
    Source = 1,
}

// The head of a frame: to whom and from whom.
#[derive(Clone, Copy, Debug, PartialEq, Eq)]
pub struct Head {
    pub destination: Address,
    pub source: Address,
}

// Whether an address can be written: characters A–Z and 0–9, spaces after the last of them only, not
// all spaces, a number of at most 15, and a bit 7 of 0 or 1.
#[tactic(auto, unfolding(crate::specs::Address::is_writable))]
pub fn writable(a: Address) -> bool
    ensures { result ≡ is_writable a }
{
    spelling::is_name(a) && a.number < 16 && a.bit7 < 2
}

// The address in the seven bytes of s from a place on; refuses 2. Bytes beyond the end of s are
// no address.
#[tactic(auto, using(crate::proofs::SpellingLaws::address_reading))]
pub fn read_address(s: &[u8], at: usize, role: Role) -> Result<Address, Reason>
    ensures { answer_of result ≡ read_address role s.now at }
{
    if s.len() < 7 || s.len() - 7 < at {
        return Err(Reason::Address);
    }
    spelling::read(s, at, role)
}

// Writes an address's seven bytes into out from a place on; refuses 2, 12.
pub fn write_address(out: &mut [u8], at: usize, a: Address, role: Role) -> Result<(), Reason>
    ensures { Writes out.old (write_address role out.old at a) result out.new }
{
    if !writable(a) {
        return Err(Reason::Address);
    }
    let bytes = spelling::bytes_of(a, role);
    if octets::put(out, at, &bytes) {
        Ok(())
    } else {
        Err(Reason::Space)
    }
}

// The head of a frame whose protocol is the one named; refuses 1 (below 16), 2, 3, 4, 7 (over 255).
#[tactic(auto, using(crate::proofs::HeadLaws::head_reading), unfolding(crate::specs::Head::head_of))]
pub fn read_head(frame: &[u8], protocol: u8) -> Result<Head, Reason>
    ensures { answer_of result ≡ read_head protocol frame.now }
{
    if frame.len() < HEAD_LENGTH {
        return Err(Reason::Short);
    }
    let destination = read_address(frame, 0, Role::Destination)?;
    let source = read_address(frame, 7, Role::Source)?;
    if frame[14] != CONTROL {
        return Err(Reason::Control);
    }
    if frame[15] != protocol {
        return Err(Reason::Protocol);
    }
    if MOST_INFORMATION < frame.len() - HEAD_LENGTH {
        return Err(Reason::Size);
    }
    Ok(Head {
        destination,
        source,
    })
}

// Writes a frame's head, its protocol the one named, into the first 16 bytes of out; refuses 2, 12.
pub fn write_head(out: &mut [u8], head: Head, protocol: u8) -> Result<(), Reason>
    ensures { Writes out.old (write_head out.old head.destination head.source protocol) result out.new }
{
    if !(writable(head.destination) && writable(head.source)) {
        return Err(Reason::Address);
    }
    if out.len() < HEAD_LENGTH {
        return Err(Reason::Space);
    }
    let to = spelling::bytes_of(head.destination, Role::Destination);
    let from = spelling::bytes_of(head.source, Role::Source);
    octets::put(out, 0, &to);
    octets::put(out, 7, &from);
    octets::put(out, 14, &[CONTROL, protocol]);
    Ok(())
}
