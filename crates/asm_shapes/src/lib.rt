// What operand shapes and label rows are made of: a byte at a place, digits, a pair of digits, a name, a register at a place, a number.
// Every function takes a piece or a part of one and requires nothing of it.
#![tactic(auto)]

ghost use Rattle.std.specs.Prelude.{◌≡◌, cond, None, Ok};
ghost use Rattle.text_read.specs.Numerals.{decimal};
ghost use Rattle.vm_operands.specs.Numbers.{order, signed};
ghost use Rattle.asm.specs.Operands.{byte_is, is_digits, is_pair, is_name, hex_numeral};
ghost use Rattle.asm_shapes.specs.Shapes.{register_found_at, in_range, source_number_of};

use text::ByteClass;
use vm_hardware::OlaRegister;
use vm_operands::ImmediateValue;

// The number of a shape is out of range: the piece has the shape, and is no operand.
#[derive(Clone, Copy)]
pub struct OutOfRange;

// Whether byte b stands at place k; past the end stands 0.
pub fn byte_is(text: &[u8], k: usize, b: u8) -> bool
    ensures { result ≡ byte_is text.now k b }
{
    text.get(k).copied().unwrap_or(0) == b
}

// One or more digits.
#[tactic(auto, using(crate::proofs::Laws::digits_laws))]
pub fn is_digits(text: &[u8]) -> bool
    ensures { result ≡ is_digits text.now }
{
    let n = ByteClass::Digit.scan(text);
    n != 0 && n == text.len()
}

// Digits, `_`, digits.
#[tactic(auto, using(crate::proofs::Laws::pair_laws))]
pub fn is_pair(text: &[u8]) -> bool
    ensures { result ≡ is_pair text.now }
{
    let k = ByteClass::Digit.scan(text);
    match &text[k..] {
        [b'_', rest @ ..] => k != 0 && is_digits(rest),
        _ => false,
    }
}

// Any underscores or none, at least one letter, then any letters, digits, underscores or none.
#[tactic(auto, using(crate::proofs::Laws::name_laws))]
pub fn is_name(text: &[u8]) -> bool
    ensures { result ≡ is_name text.now }
{
    let rest = &text[ByteClass::Is(b'_').scan(text)..];
    match rest {
        [first, ..] => {
            ByteClass::Letter.contains(*first) && ByteClass::Word.scan(rest) == rest.len()
        }
        [] => false,
    }
}

// The register rA that stands at place k.
#[tactic(auto, using(crate::proofs::Laws::register_laws))]
pub fn register_at(text: &[u8], k: usize) -> Option<OlaRegister>
    ensures { result ≡ register_found_at text.now k }
{
    vm_registers::register_from_str(text.get(k..)?.get(..2)?)
}

// `0x` and one to sixteen hexadecimal digits of either case: their value.
fn hex_numeral(text: &[u8]) -> Option<u64>
    ensures { result ≡ hex_numeral text.now }
{
    let [b'0', b'x', digits @ ..] = text else {
        return None;
    };
    if 16 < digits.len() {
        return None;
    }
    text_read::read_hex_digits(digits, u64::MAX)
}

// A number that was read, or one that is out of range.
fn in_range(found: Option<ImmediateValue>) -> Result<Option<ImmediateValue>, OutOfRange>
    ensures { result ≡ in_range found }
{
    Ok(Some(found.ok_or(OutOfRange)?))
}

// Decimal digits behind a sign, or behind none.
fn decimal_number(negative: bool, digits: &[u8]) -> Result<Option<ImmediateValue>, OutOfRange>
    ensures { result ≡ cond (is_digits digits.now) (in_range (signed negative (decimal order digits.now))) (Ok None) }
{
    if !is_digits(digits) {
        return Ok(None);
    }
    in_range(ImmediateValue::from_sign(
        negative,
        text_read::read_decimal(digits, ImmediateValue::LARGEST),
    ))
}

// The number n of a shape: none where the text is no number.
#[tactic(auto, using(crate::proofs::Laws::number_laws))]
pub fn source_number(text: &[u8]) -> Result<Option<ImmediateValue>, OutOfRange>
    ensures { result ≡ source_number_of text.now }
{
    if let Some(v) = hex_numeral(text) {
        return in_range(ImmediateValue::from_sign(false, Some(v)));
    }
    match text {
        [b'-', digits @ ..] => decimal_number(true, digits),
        [b'+', digits @ ..] => decimal_number(false, digits),
        _ => decimal_number(false, text),
    }
}
