// Numbers read from digits, as Rust's `from_str_radix` and `trim_start_matches("0x")` read them, and as a source has them behind `0x`.
// Every public function takes a part of a text, requires nothing of it, and takes the largest number that is accepted.
#![tactic(auto)]

ghost use Rattle.std.specs.Prelude.{◌≡◌, ◌+◌, ◌≤◌};
ghost use Rattle.text_read.specs.Numerals.{digit_value, unprefixed, numeral, hexadecimal, decimal};

// The value of a digit of either case, or 16.
#[tactic(auto, unfolding(crate::specs::Numerals::digit_value, text::specs::Bytes::is_digit))]
fn digit_value(b: u8) -> u64
    ensures { result ≡ digit_value b }
{
    match b {
        b'0'..=b'9' => u64::from(b - b'0'),
        b'A'..=b'F' => u64::from(b - b'A') + 10,
        b'a'..=b'f' => u64::from(b - b'a') + 10,
        _ => 16,
    }
}

// One or more digits to the base, any count of leading zeros, at most `most`.
#[tactic(auto, using(crate::proofs::Laws::read_laws))]
fn read_digits(digits: &[u8], base: u64, most: u64) -> Option<u64>
    requires { (2 ≤ base) × (base ≤ 16) }
    ensures { result ≡ numeral base (most + 1) digits.now }
{
    if digits.is_empty() {
        return None;
    }
    let mut value: u64 = 0;
    for &b in digits {
        let digit = digit_value(b);
        if base <= digit {
            return None;
        }
        value = value.checked_mul(base)?.checked_add(digit)?;
    }
    (value <= most).then_some(value)
}

// What follows `0x`, once or repeated or not at all.
#[tactic(auto, using(crate::proofs::Laws::prefix_laws))]
fn without_prefix(text: &[u8]) -> &[u8]
    ensures { result.now ≡ unprefixed text.now }
{
    let mut rest = text;
    while let [b'0', b'x', next @ ..] = rest {
        rest = next;
    }
    rest
}

// Hexadecimal digits of either case, one or more, any count of leading zeros, at most `most`: no `0x`, no sign.
pub fn read_hex_digits(digits: &[u8], most: u64) -> Option<u64>
    ensures { result ≡ numeral 16 (most + 1) digits.now }
{
    read_digits(digits, 16, most)
}

// Hexadecimal digits of either case after any `0x`, repeated or none, and an optional `+`; at most `most`.
pub fn read_hexadecimal(text: &[u8], most: u64) -> Option<u64>
    ensures { result ≡ hexadecimal (most + 1) text.now }
{
    let rest = without_prefix(text);
    read_hex_digits(rest.strip_prefix(b"+").unwrap_or(rest), most)
}

// Decimal digits, one or more, any count of leading zeros, at most `most`.
pub fn read_decimal(text: &[u8], most: u64) -> Option<u64>
    ensures { result ≡ decimal (most + 1) text.now }
{
    read_digits(text, 10, most)
}
