// The check of an information field (01, "Frame"): the remainder of its bytes by the polynomial of
// 16, 12, 5 and 0, start 0, most significant bit first. Each step is worked out by shifts and
// exclusive-or (02, C-13): a short message byte by byte, a longer one eight bytes at a step.
//
// Its contracts cite `specs/Remainder.antt`, where the remainder is taken bit by bit, and
// `specs/Check.antt`; private functions promise each other what `specs/Inner.antt` and
// `specs/Shifts.antt` have.
#![tactic(auto)]

ghost use Rattle.std.specs.Prelude.{◌≡◌, ◌+◌, ◌*◌, ◌^◌, ◌≤◌, ◌<◌, length};
ghost use Rattle.remainder.specs.Remainder.{with_bits, bits_of, remainder_of};
ghost use Rattle.remainder.specs.Check.{check_right};
ghost use Rattle.remainder.specs.Shifts.{shifted, by_fourth};
ghost use Rattle.remainder.specs.Inner.{with_number, high_first};

// The remainder of all bytes of s.
pub fn remainder(s: &[u8]) -> u16
    ensures { result ≡ remainder_of s.now }
{
    if s.len() < 4 {
        return by_bytes(s);
    }
    by_eights(s)
}

// Whether the last two bytes of an information field, high byte first, are the remainder of all
// before them. A field of fewer than two bytes has no right check.
pub fn check_right(information: &[u8]) -> bool
    ensures { result ≡ check_right information.now }
{
    let Some((message, check)) = information.split_last_chunk::<2>() else {
        return false;
    };
    let given = u16::from_be_bytes(*check);
    remainder(message) == given
}

// The remainder of all bytes of s, byte by byte.
fn by_bytes(s: &[u8]) -> u16
    ensures { result ≡ remainder_of s.now }
{
    s.iter().fold(0, |c, b| next_byte(c, *b))
}

// The remainder after one byte more. Eight bits leave at the top, the high byte exclusive-or the new
// byte; q is their quotient by the polynomial, a bit for each time that it is taken off.
fn next_byte(c: u16, b: u8) -> u16
    ensures { result ≡ with_bits c (bits_of b) }
{
    let top = (c >> 8) ^ u16::from(b);
    let q = top ^ (top >> 4);
    (c << 8) ^ (q << 12) ^ (q << 5) ^ q
}

// The remainder of all bytes of s, eight at a step. `wide` is a number of 64 bits with the remainder of
// the bytes so far. The start is 0, so zero bits in front of a message change nothing, and what is
// beyond whole eights comes first, as a number.
fn by_eights(s: &[u8]) -> u16
    ensures { result ≡ remainder_of s.now }
{
    let (front, eights) = s.as_rchunks::<8>();
    let mut wide = number_of(front);
    for eight in eights {
        wide = next_eight(wide, u64::from_be_bytes(*eight));
    }
    narrow(wide)
}

// The number of fewer than eight bytes, the first the most significant.
fn number_of(s: &[u8]) -> u64
    requires { length s.now < 8 }
    ensures { result ≡ high_first (length s.now) s.now 0 }
{
    let mut number = 0;
    for b in s {
        number = byte_behind(number, *b);
    }
    number
}

// A number with a byte behind it.
fn byte_behind(number: u64, b: u8) -> u64
    requires { number < 2 ^ 56 }
    ensures { result ≡ number * 256 + b }
{
    (number << 8) | u64::from(b)
}

// A number of 64 bits with the remainder of `wide` and the eight bytes behind it: what these 128 bits
// leave by the fourth power of the polynomial, which has the terms 64, 48, 20 and 0. Squaring
// doubles each exponent, so the second power has 32, 24, 10 and 0. The polynomial divides both, and
// what they leave has the same remainder.
fn next_eight(wide: u64, eight: u64) -> u64
    ensures { with_number 64 0 result ≡ with_number 64 (with_number 64 0 wide) eight }
{
    let q = by_fourth(wide);
    q ^ (q << 20) ^ (q << 48) ^ eight
}

// The remainder of a number of 64 bits. From its quotient by the fourth power follow that by the
// second, and the quotient q by the polynomial itself.
fn narrow(wide: u64) -> u16
    ensures { result ≡ with_number 64 0 wide }
{
    let fourth = by_fourth(wide);
    let second = fourth ^ (fourth >> 8) ^ (fourth >> 22) ^ (fourth >> 32);
    let q = second ^ (second >> 4) ^ (second >> 11) ^ (second >> 16);
    ((q ^ (q << 5) ^ (q << 12)) % 65536) as u16
}

// The quotient of a number, with 64 zero bits behind it, by the fourth power: the q of which
// q ^ (q >> 16) ^ (q >> 44) is x.
fn by_fourth(x: u64) -> u64
    ensures { result ≡ shifted by_fourth x 0 }
{
    let y = x ^ (x >> 32);
    y ^ (y >> 16) ^ (y >> 44)
}
