// What the printing program prints for each file that its arguments name, behind the file's name.
#![tactic(auto)]

use std::io;
use std::io::Read;

// Prints what is printed for the source that a reader gives. As the program print does: what two programs share would be a library of its own.
fn print_from<R: Read>(rt: &impl Print, from: &mut R) -> io::Result<()> {
    let mut source = [0u8; 4097];
    let n = input::read_full(from, &mut source)?;
    let mut text = [0u8; 65536];
    let printed = encoder_print::print_source(&source[..n], &mut text);
    match printed {
        Ok(m) => rt.write_all(&text[..m]),
        Err(program::WriteRefusal::TextTooShort) => Ok(()),
    }
}

fn main(rt: HostRuntime) -> io::Result<()> {
    for i in 1..usize::MAX {
        let mut buffer = [0u8; 64];
        let Some(name) = input::argument(&rt, i, &mut buffer) else {
            return Ok(());
        };
        if let Some(mut file) = input::open_named(&rt, &mut rt.stderr(), name)? {
            print_from(&rt, &mut file)?;
        }
    }
    Ok(())
}
