// What an assembled program holds, written as a line says it.
use crate::answers::{UNREAD, write_numbers, write_space, write_words};
use crate::fields::{NO_COUNT, count_of, field, item, named};
use std::io;
use std::io::Write;

// The last place of a host.
fn last_place(hosts: &[u64], host: u64) -> usize {
    hosts.iter().rposition(|other| *other == host).unwrap_or(0)
}

// As many hosts as are kept, each with the last place that it has in the list. Which they are is asked by the items.
fn write_kept(out: &mut impl Write, items: &[u8], hosts: &[u64], kept: u64) -> io::Result<()> {
    out.write_all(b"\t")?;
    for i in 0..kept as usize {
        let host = count_of(named(item(items, i))).unwrap_or(NO_COUNT) as u64;
        write_space(out, i)?;
        write!(out, "{host}={}", last_place(hosts, host))?;
    }
    Ok(())
}

// The words, the hosts and the hosts kept. The text lent for the bytecode has just the room that the line says: each of its line feeds stands
// there as two bytes. Answers the refusal.
pub fn write_program(
    out: &mut impl Write,
    line: &[u8],
    words: &[u64],
    hosts: &[u64],
    kept: u64,
) -> io::Result<u64> {
    let said = field(line, 7).len() + 1;
    let room = said.checked_sub(words.len()).ok_or(UNREAD)?;
    let refusal = write_words(out, words, room)?;
    write_numbers(out, hosts)?;
    write_kept(out, field(line, 9), hosts, kept)?;
    Ok(refusal)
}
