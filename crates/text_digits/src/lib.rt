// Numbers written into lent text in digits: `0x` and the fewest or sixteen hexadecimal digits, and decimal.
// A public writer writes at byte `at` where all fits, and says how many bytes; otherwise it leaves the text as it is.
#![tactic(auto)]

ghost use Rattle.std.specs.Prelude.{◌≡◌, ◌≤◌, ◌<◌, ◌++◌, length};
ghost use Rattle.text_write.specs.Digits.{digit_byte, digit_count, digits_of, fewest_text, sixteen_text, decimal_text};
ghost use Rattle.text_write.specs.Put.{put_count, put_into};

// The byte of a digit: `0` to `9`, then `a` to `f`.
fn digit_byte(digit: u8) -> u8
    requires { digit < 16 }
    ensures { result ≡ digit_byte digit }
{
    if digit < 10 {
        b'0' + digit
    } else {
        b'a' + (digit - 10)
    }
}

// How many digits number has to the base, at least one.
fn count_digits(number: u64, base: u64) -> usize
    requires { (2 ≤ base) × (base ≤ 16) }
    ensures { result ≡ digit_count base 63 number }
{
    let mut rest = number;
    for count in 1..64 {
        if rest < base {
            return count;
        }
        rest /= base;
    }
    64
}

// Writes the lowest digits of number, as many as there are bytes.
#[tactic(auto, using(crate::proofs::Steps::digits_laws))]
fn put_digits(bytes: &mut [u8], number: u64, base: u64)
    requires { (2 ≤ base) × (base ≤ 16) }
    ensures { bytes.new ≡ digits_of base (length bytes.old) number }
{
    let mut rest = number;
    for i in (0..bytes.len()).rev() {
        bytes[i] = digit_byte((rest % base) as u8);
        rest /= base;
    }
}

// Writes the prefix and as many digits as count says.
fn put_number(
    text: &mut [u8],
    at: usize,
    prefix: &[u8],
    count: usize,
    number: u64,
    base: u64,
) -> Option<usize>
    requires { (2 ≤ base) × (base ≤ 16) }
    ensures { (result ≡ put_count text.old at (prefix.now ++ digits_of base count number)) × (text.new ≡ put_into text.old at (prefix.now ++ digits_of base count number)) }
{
    let first = at.checked_add(prefix.len())?;
    let end = first.checked_add(count)?;
    if text.len() < end {
        return None;
    }
    text[at..first].copy_from_slice(prefix);
    put_digits(&mut text[first..end], number, base);
    Some(end - at)
}

// Writes `0x` and the fewest lower-case digits.
pub fn put_fewest(text: &mut [u8], at: usize, number: u64) -> Option<usize>
    ensures { (result ≡ put_count text.old at (fewest_text number)) × (text.new ≡ put_into text.old at (fewest_text number)) }
{
    put_number(text, at, b"0x", count_digits(number, 16), number, 16)
}

// Writes `0x` and sixteen lower-case digits.
pub fn put_sixteen(text: &mut [u8], at: usize, number: u64) -> Option<usize>
    ensures { (result ≡ put_count text.old at (sixteen_text number)) × (text.new ≡ put_into text.old at (sixteen_text number)) }
{
    put_number(text, at, b"0x", 16, number, 16)
}

// Writes the fewest decimal digits.
pub fn put_decimal(text: &mut [u8], at: usize, number: u64) -> Option<usize>
    ensures { (result ≡ put_count text.old at (decimal_text number)) × (text.new ≡ put_into text.old at (decimal_text number)) }
{
    put_number(text, at, b"", count_digits(number, 10), number, 10)
}
