// What a line says. Its fields are parted by tabs and the items of a field by spaces; in a field of text \n, \r, \t, \\ and \xNN stand for bytes,
// and \*N; and a byte for N of that byte.
ghost use Rattle.std.specs.Prelude.{◌≤◌, length, IfSome};

// What is written for a count or an address that is not there: no line says so large a count, and no text has so many lines.
pub const NO_COUNT: usize = 1000000;

// A byte of a text, how many times it stands there, and what is left behind it.
#[derive(Clone, Copy)]
struct Step<'a> {
    byte: u8,
    times: usize,
    rest: &'a [u8],
}

// A room, none where it is more than the most that there is.
pub fn within(room: usize, most: usize) -> usize
    ensures { result ≤ most }
{
    if room <= most { room } else { 0 }
}

// The k-th part, from 0, of those that a mark parts, empty where there are not so many.
pub fn parted(text: &[u8], mark: u8, k: usize) -> &[u8] {
    text.split(|byte| *byte == mark).nth(k).unwrap_or(&[])
}

// The k-th field of a line.
pub fn field(line: &[u8], k: usize) -> &[u8] {
    parted(line, b'\t', k)
}

// The k-th field of a line and all that stand behind it.
pub fn fields_from(line: &[u8], k: usize) -> &[u8] {
    line.splitn(k.saturating_add(1), |byte| *byte == b'\t')
        .nth(k)
        .unwrap_or(&[])
}

// The k-th item of a field.
pub fn item(list: &[u8], k: usize) -> &[u8] {
    parted(list, b' ', k)
}

// What stands before the equals sign of an item.
pub fn named(item: &[u8]) -> &[u8] {
    parted(item, b'=', 0)
}

// The count that digits say.
pub fn count_of(digits: &[u8]) -> Option<usize> {
    let count = text_read::read_decimal(digits, 999999)?;
    Some(count as usize)
}

// A number in decimal digits, or in hexadecimal ones behind `0x`.
pub fn read_number(digits: &[u8]) -> Option<u64> {
    match digits {
        [_, b'x', _, ..] => text_read::read_hexadecimal(digits, u64::MAX),
        _ => text_read::read_decimal(digits, u64::MAX),
    }
}

// A byte of two hexadecimal digits.
fn hexadecimal(text: &[u8]) -> Option<Step<'_>>
    ensures { IfSome result (λ s. length s.rest.now ≤ length text.now) }
{
    let (digits, rest) = text.split_at_checked(2)?;
    let byte = u8::try_from(text_read::read_hexadecimal(digits, 255)?).ok()?;
    Some(Step {
        byte,
        times: 1,
        rest,
    })
}

// A byte behind its count, which ends at a semicolon.
fn repeated(text: &[u8]) -> Option<Step<'_>>
    ensures { IfSome result (λ s. length s.rest.now ≤ length text.now) }
{
    let end = text.iter().position(|byte| *byte == b';')?;
    let times = count_of(&text[..end])?;
    let (byte, rest) = text[end..][1..].split_first()?;
    Some(Step {
        byte: *byte,
        times,
        rest,
    })
}

// The byte that a letter behind `\` stands for, with what that letter takes of the text.
fn escaped(text: &[u8]) -> Option<Step<'_>>
    ensures { IfSome result (λ s. length s.rest.now ≤ length text.now) }
{
    let (letter, rest) = text.split_first()?;
    let byte = match *letter {
        b'n' => b'\n',
        b'r' => b'\r',
        b't' => b'\t',
        b'\\' => b'\\',
        b'x' => return hexadecimal(rest),
        b'*' => return repeated(rest),
        _ => return None,
    };
    Some(Step {
        byte,
        times: 1,
        rest,
    })
}

// Puts the bytes that a field of text says, and answers them; none where it cannot be read or there is no byte of room left.
pub fn unescape<'a>(text: &[u8], out: &'a mut [u8]) -> Option<&'a [u8]> {
    let mut rest = text;
    let mut n: usize = 0;
    while let Some((byte, tail)) = rest.split_first() {
        let step = if *byte == b'\\' {
            escaped(tail)?
        } else {
            Step {
                byte: *byte,
                times: 1,
                rest: tail,
            }
        };
        let end = n.checked_add(step.times)?;
        out.get_mut(n..end)?.fill(step.byte);
        n = end;
        rest = step.rest;
    }
    if n < out.len() { Some(&out[..n]) } else { None }
}
