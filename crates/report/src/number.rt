// Numbers and words, written as text.
ghost use Rattle.std.specs.Prelude.{◌≡◌, ◌++◌, ◌+◌, ◌≤◌, length};
ghost use Rattle.octets.specs.Runs.{put_in};
ghost use Rattle.report.specs.Decimal.{digit_count, digits, decimal};

// How many digits a number has.
fn places(n: u32) -> usize
    ensures { result ≡ digit_count n }
{
    match n.checked_ilog10() {
        Some(k) => k as usize + 1,
        None => 1,
    }
}

// Writes the last k digits of a number into out from a place on, the last one first.
fn put_digits(n: u32, k: usize, out: &mut [u8], at: usize)
    requires { at + k ≤ length out.old }
    ensures { out.new ≡ put_in out.old at (digits k n) }
{
    let mut rest = n;
    for i in (0..k).rev() {
        out[at + i] = b'0' + (rest % 10) as u8;
        rest /= 10;
    }
}

// Writes a number in decimal into out from a place on; the place behind it.
pub(crate) fn put_number(n: u32, out: &mut [u8], at: usize) -> usize
    requires { at + length (decimal n) ≤ length out.old }
    ensures value { result ≡ at + length (decimal n) }
    ensures out_after { out.new ≡ put_in out.old at (decimal n) }
{
    let k = places(n);
    put_digits(n, k, out, at);
    at + k
}

// Writes a word into out from a place on; the place behind it.
pub(crate) fn put_word(word: &[u8], out: &mut [u8], at: usize) -> usize
    requires { at + length word.now ≤ length out.old }
    ensures value { result ≡ at + length word.now }
    ensures out_after { out.new ≡ put_in out.old at word.now }
{
    octets::put(out, at, word);
    at + word.len()
}

// Writes a word and a number behind it into out from a place on; the place behind both.
pub(crate) fn put_both(word: &[u8], n: u32, out: &mut [u8], at: usize) -> usize
    requires { at + length word.now + length (decimal n) ≤ length out.old }
    ensures value { result ≡ at + length (word.now ++ decimal n) }
    ensures out_after { out.new ≡ put_in out.old at (word.now ++ decimal n) }
{
    let next = put_word(word, out, at);
    put_number(n, out, next)
}
