// Reads addresses through the library, every byte value at every place, and prints the byte values
// that are accepted: at each character of a source with a name of six, of two and of one character,
// and at the SSID byte in both roles. An accepted address is written again, and a question mark stands behind a value whose
// seven bytes do not come back.
#![tactic(auto)]

use ax25::{Address, Role};
use program_tools::printer::Printer;
use std::io;

// A source with a name of six characters, of two, and of one.
const SIX: [u8; 7] = [0xAA, 0x9E, 0xA6, 0x82, 0xA8, 0x6A, 0x77];

const TWO: [u8; 7] = [0x82, 0x62, 0x40, 0x40, 0x40, 0x40, 0x61];

const ONE: [u8; 7] = [0x82, 0x40, 0x40, 0x40, 0x40, 0x40, 0x61];

fn main(rt: HostRuntime) {
    // A printer answers no error.
    let _ = all(&Printer { rt: &rt });
}

// All lines, in their order.
fn all(rt: &impl Print) -> io::Result<()> {
    for (name, bytes) in [("UOSAT5-11", SIX), ("A1-0", TWO), ("A-0", ONE)] {
        for at in 0..6 {
            print!(rt; "{name} character {at}:")?;
            values(rt, bytes, at, Role::Source)?;
        }
    }
    print!(rt; "SSID of a destination:")?;
    values(rt, SIX, 6, Role::Destination)?;
    print!(rt; "SSID of a source:")?;
    values(rt, SIX, 6, Role::Source)
}

// The rest of a line: the byte values that are accepted at a place.
fn values(rt: &impl Print, bytes: [u8; 7], at: usize, role: Role) -> io::Result<()> {
    for value in 0..=u8::MAX {
        let mut tried = bytes;
        octets::put(&mut tried, at, &[value]);
        if let Ok(address) = ax25::read_address(&tried, 0, role) {
            let again = written(address, role);
            let mark = if again == tried { "" } else { "?" };
            print!(rt; " {value:02x}{mark}")?;
        }
    }
    println!(rt)
}

// The seven bytes as which an address is written, zeros where it is refused.
fn written(address: Address, role: Role) -> [u8; 7] {
    let mut bytes = [0; 7];
    let _ = ax25::write_address(&mut bytes, 0, address, role);
    bytes
}
