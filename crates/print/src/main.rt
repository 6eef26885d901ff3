// The printing program: reads a source on standard input, and prints the position and the text of each of its words, or why it is refused.
#![tactic(auto)]

use std::io;

fn main(rt: HostRuntime) -> io::Result<()> {
    // One byte more than a source may have, so that a longer one is seen.
    let mut source = [0u8; 4097];
    let n = input::read_full(&mut rt.stdin(), &mut source)?;
    let mut text = [0u8; 65536];
    let printed = encoder_print::print_source(&source[..n], &mut text);
    match printed {
        Ok(m) => rt.write_all(&text[..m]),
        Err(program::WriteRefusal::TextTooShort) => Ok(()),
    }
}
