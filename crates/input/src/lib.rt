// Reading bytes until a buffer is full, and opening the files that arguments name.
#![tactic(auto)]

ghost use Rattle.std.specs.Io.{ReadsAtMost};

use std::env::{Env, FillError};
use std::fs::File;
use std::io;
use std::io::{ErrorKind, Read, Write};
use std::rt::Files;

// Reads until the buffer is full or the input ends, and answers how many bytes stand at the buffer's start.
// A loop, since std's `read_exact` does not say how many there were where the input ends first.
pub fn read_full<R: Read>(reader: &mut R, buf: &mut [u8]) -> io::Result<usize>
    ensures { ReadsAtMost result buf.new }
{
    let mut done: usize = 0;
    while done < buf.len() {
        let n = reader.read(&mut buf[done..])?;
        if n == 0 {
            break;
        }
        done += n;
    }
    Ok(done)
}

// The name that an argument gives, none behind the last. One of more than 64 bytes counts as an empty one, which names no file.
// Each program has the loop over them itself: a function to which the work was lent would have to require that it may be called.
pub fn argument<'a>(rt: &impl Env, i: usize, buffer: &'a mut [u8; 64]) -> Option<&'a [u8]> {
    match rt.arg(i, buffer) {
        Ok(n) => Some(&buffer[..n]),
        Err(FillError::TooLong) => Some(&[]),
        Err(FillError::NotPresent) => None,
    }
}

// Opens a file for reading by its name. A name that is not UTF-8 names no file.
fn open_read<R: Files>(rt: &R, name: &[u8]) -> io::Result<R::File> {
    let Ok(path) = str::from_utf8(name) else {
        return Err(io::Error::new(ErrorKind::InvalidInput, "the name is not UTF-8"));
    };
    File::open(rt, path)
}

// Opens the file of a name and prints the name, or says to the errors why it does not open.
pub fn open_named<R: Files + Print, W: Write>(
    rt: &R,
    errors: &mut W,
    name: &[u8],
) -> io::Result<Option<R::File>> {
    match open_read(rt, name) {
        Ok(file) => {
            rt.write_all(name)?;
            rt.write_all(b"\n")?;
            Ok(Some(file))
        }
        Err(error) => {
            errors.write_all(name)?;
            writeln!(errors, ": {error}")?;
            Ok(None)
        }
    }
}
