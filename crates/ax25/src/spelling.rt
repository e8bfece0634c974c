// How an address is spelled in seven bytes.
ghost use Rattle.std.specs.Prelude.{◌≡◌, true, ◌+◌, ◌≤◌, length};
ghost use Rattle.reason.specs.Answer.{answer_of};
ghost use Rattle.ax25.specs.Address.{is_character, is_name, is_writable, address_bytes, address_at, low_bits_clear, ssid_right, read_address};

use crate::{Address, Role};
use reason::Reason;

// A–Z and 0–9.
fn is_character(c: u8) -> bool
    ensures { result ≡ is_character c }
{
    c.is_ascii_uppercase() || c.is_ascii_digit()
}

// Whether an address's six characters are a name: padded at the end with spaces, not all spaces. From the last character to the
// first, `blank` says that it and all after it are spaces, and `padded` that they are characters and then only spaces.
// Kept: `&` and `|`, since tests without a branch read a frame's head in 75 cycles, and `&&` and `||` in 109.
#[tactic(auto, using(std::proofs::lemmas::List::nil_from_length), unfolding(crate::specs::Address::is_name))]
pub(crate) fn is_name(a: Address) -> bool
    ensures { result ≡ is_name a }
{
    let mut blank = true;
    let mut padded = true;
    for c in a.characters.iter().rev() {
        blank &= *c == b' ';
        padded = blank | (padded & is_character(*c));
    }
    padded && !blank
}

// Whether each of the six bytes of s from a place on has its lowest bit clear.
fn low_bits_clear(s: &[u8], at: usize) -> bool
    ensures { result ≡ low_bits_clear s.now at }
{
    octets::array::<6>(s, at).iter().all(|b| b % 2 == 0)
}

// Whether an SSID byte has bits 6 and 5 set, and the role's bit 0.
fn ssid_right(ssid: u8, role: Role) -> bool
    ensures { result ≡ ssid_right role ssid }
{
    ssid / 32 % 4 == 3 && ssid % 2 == role as u8
}

// What the seven bytes of s from a place on spell.
fn spelled(s: &[u8], at: usize) -> Address
    requires { at + 7 ≤ length s.now }
    ensures { result ≡ address_at s.now at }
{
    let ssid = s[at + 6];
    Address {
        characters: std::array::from_fn(|k| s[at + k] >> 1),
        number: ssid / 2 % 16,
        bit7: ssid / 128,
    }
}

// The address in the seven bytes of s from a place on, or reason 2.
#[tactic(auto, using(crate::proofs::SpellingLaws::address_reading), unfolding(crate::specs::Address::well_formed))]
pub(crate) fn read(s: &[u8], at: usize, role: Role) -> Result<Address, Reason>
    requires { at + 7 ≤ length s.now }
    ensures { answer_of result ≡ read_address role s.now at }
{
    let a = spelled(s, at);
    if low_bits_clear(s, at) && ssid_right(s[at + 6], role) && is_name(a) {
        Ok(a)
    } else {
        Err(Reason::Address)
    }
}

// The seven bytes of an address that can be written.
#[tactic(auto, using(crate::proofs::SpellingLaws::writable_bounds))]
pub(crate) fn bytes_of(a: Address, role: Role) -> [u8; 7]
    requires { is_writable a ≡ true }
    ensures { result ≡ address_bytes role a }
{
    let ssid = a.bit7 * 128 + 0x60 + a.number * 2 + role as u8;
    let mut bytes = [ssid; 7];
    bytes[..6].copy_from_slice(&a.characters.map(|c| c << 1));
    bytes
}
