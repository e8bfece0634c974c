// Bytes and numbers in a lent slice: read at a place, made into bytes, and written as a run.
// Numbers of several bytes are least significant byte first (01, "What the station does").
//
// Every function answers for every slice and every place: a byte beyond the end reads as 0, and a
// run that does not fit is not written. Its contracts cite `specs/Numbers.antt`, `specs/Values.antt` and
// `specs/Runs.antt`; callers' proofs use the laws of `proofs/NumberLaws.antt`, `proofs/ValueLaws.antt` and
// `proofs/RunLaws.antt`.
//
// Kept: a slice and a place in it are two parameters, as in the standard library; a value of both would be made anew for each call.
#![tactic(auto)]

ghost use Rattle.std.specs.Prelude.{◌≡◌, ◌+◌, ◌≤◌, ◌<◌, ◌^◌, min, length};
ghost use Rattle.octets.specs.Numbers.{byte_at, number_at, bytes_of};
ghost use Rattle.octets.specs.Values.{values_from};
ghost use Rattle.octets.specs.Runs.{put_in, Put};

// The byte of s at a place, 0 beyond the end of s.
pub fn byte(s: &[u8], at: usize) -> u8
    ensures { result ≡ byte_at s.now at }
{
    s.get(at).copied().unwrap_or(0)
}

// The number of the N bytes of s from a place on, of eight at most; bytes beyond the end of s count as 0.
// Kept: a sum, since `from_le_bytes` asks for eight bytes that are there, and of N at any place they would first be copied.
pub fn number<const N: usize>(s: &[u8], at: usize) -> u64
    ensures value { result ≡ number_at (min N 8) s.now at }
    ensures upper_bound { result < 256 ^ min N 8 }
{
    if s.len() <= at {
        return 0;
    }
    let mut number = 0;
    for k in (0..N.min(8)).rev() {
        number = number * 256 + u64::from(byte(s, at + k));
    }
    number
}

// The lowest N bytes of a number: all of it where it is below 256 to the N.
// Kept: a byte at each turn, since `to_le_bytes` has eight of them, and N says how many are wanted, also more.
pub fn bytes<const N: usize>(number: u64) -> [u8; N]
    ensures { result ≡ bytes_of N number }
{
    let mut bytes = [0; N];
    let mut rest = number;
    for byte in &mut bytes {
        *byte = (rest % 256) as u8;
        rest /= 256;
    }
    bytes
}

// The N bytes of s from a place on; those beyond the end of s are 0.
pub fn array<const N: usize>(s: &[u8], at: usize) -> [u8; N]
    ensures { result ≡ values_from (byte_at s.now) at N }
{
    let mut bytes = [0; N];
    if at < s.len() {
        for (k, byte) in bytes.iter_mut().enumerate() {
            *byte = self::byte(s, at + k);
        }
    }
    bytes
}

// Writes all of a run into out from a place on, and answers true; where it does not fit, it leaves
// every byte and answers false.
pub fn put(out: &mut [u8], at: usize, run: &[u8]) -> bool
    ensures { Put out.old at run.now result out.new }
{
    if out.len() < at || out.len() - at < run.len() {
        return false;
    }
    store(out, at, run);
    true
}

// Writes all of a run, which fits, into out from a place on.
// Kept: a byte at each turn, of which the compiler takes many at once. `copy_from_slice` calls `memmove`, which a program in C
// would then have to bring beside what it brought before.
fn store(out: &mut [u8], at: usize, run: &[u8])
    requires { at + length run.now ≤ length out.old }
    ensures { out.new ≡ put_in out.old at run.now }
{
    for (k, byte) in run.iter().enumerate() {
        out[at + k] = *byte;
    }
}
