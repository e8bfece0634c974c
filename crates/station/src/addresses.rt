// An address as one number, as a host program hands it over: its six characters, the number of its SSID and its bit 7,
// a byte each, least significant byte first. The contracts cite `specs/AddressNumber.antt`.
ghost use Rattle.std.specs.Prelude.{◌≡◌};
ghost use Rattle.station.specs.AddressNumber.{address_number, address_of};

use ax25::Address;

// An address as a number.
pub(crate) fn address_number(a: Address) -> u64
    ensures { result ≡ address_number a }
{
    let [c0, c1, c2, c3, c4, c5] = a.characters;
    octets::number::<8>(&[c0, c1, c2, c3, c4, c5, a.number, a.bit7], 0)
}

// The address that a number tells, which can be written or not.
pub(crate) fn address_of(n: u64) -> Address
    ensures { result ≡ address_of n }
{
    let [c0, c1, c2, c3, c4, c5, number, bit7] = octets::bytes::<8>(n);
    Address {
        characters: [c0, c1, c2, c3, c4, c5],
        number,
        bit7,
    }
}
