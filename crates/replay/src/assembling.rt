// The cases of assembling.
ghost use Rattle.std.specs.Prelude.{◌≤◌, ◌<◌};

use ola_answers::OlaAssembly;
use relocate::{LabelKind, WordAddress};
use replay_lines::answers::{UNREAD, write_head, write_space};
use replay_lines::fields::{NO_COUNT, count_of, field, item, named, unescape, within};
use replay_lines::programs::write_program;
use std::io;
use std::io::Write;

// What assembling answered and wrote. The table's entries past those lent are zeros and not mapped.
#[derive(Clone, Copy)]
struct Assembled {
    found: OlaAssembly,
    kinds: [u8; 512],
    mapped: [bool; 512],
    starts: [usize; 512],
    lengths: [usize; 512],
    addresses: [u64; 512],
    words: [u64; 512],
    hosts: [u64; 512],
}

impl Assembled {
    // The address of the row among the first so many entries that holds a name of a kind.
    fn address_of(&self, source: &[u8], n: usize, kind: u8, name: &[u8]) -> Option<WordAddress>
        requires { n ≤ 512 }
    {
        relocate_names::held_address(
            source,
            &self.kinds[..n],
            &self.mapped,
            &self.starts,
            &self.lengths,
            &self.addresses,
            kind,
            name,
        )
    }

    // Whether an entry is the first that holds a name of a kind: with it the name is held, and without it not yet.
    fn is_first(&self, source: &[u8], i: usize, kind: u8) -> bool
        requires { i < 512 }
    {
        let name = relocate_names::name_at(source, self.starts[i], self.lengths[i]);
        self.address_of(source, i, kind, name).is_none()
            && self.address_of(source, i + 1, kind, name).is_some()
    }

    // How many names of a kind are mapped.
    fn count_names(&self, source: &[u8], kind: u8) -> usize {
        (0..512).filter(|i| self.is_first(source, *i, kind)).count()
    }

    // As many names of a kind as are mapped, each with the address of the row that holds it. Which they are is asked by the items.
    fn write_addresses(
        &self,
        out: &mut impl Write,
        items: &[u8],
        source: &[u8],
        kind: u8,
    ) -> io::Result<()> {
        out.write_all(b"\t")?;
        for i in 0..self.count_names(source, kind) {
            let name = named(item(items, i));
            let address = match self.address_of(source, 512, kind, name) {
                Some(address) => address.0,
                None => NO_COUNT as u64,
            };
            write_space(out, i)?;
            out.write_all(name)?;
            write!(out, "={address}")?;
        }
        Ok(())
    }

    // What assembling answered and wrote. Answers the refusal.
    fn write(&self, out: &mut impl Write, line: &[u8], source: &[u8]) -> io::Result<u64> {
        let found = self.found;
        if found.refusal != 0 {
            write_head(out, found.refusal, found.detail)?;
            return Ok(found.refusal);
        }
        let words = self.words.get(..found.words as usize).unwrap_or(&[]);
        let hosts = self.hosts.get(..found.hosts as usize).unwrap_or(&[]);
        let refusal = write_program(out, line, words, hosts, found.kept)?;
        self.write_addresses(out, field(line, 10), source, LabelKind::Call as u8)?;
        self.write_addresses(out, field(line, 11), source, LabelKind::Jmp as u8)?;
        Ok(refusal)
    }
}

// Assembles with the room for entries, words and hosts that a line says, each at most 512.
fn assemble(line: &[u8], source: &[u8], prophets: &[u8]) -> Assembled {
    let entries = within(count_of(field(line, 3)).unwrap_or(0), 512);
    let word_room = within(count_of(field(line, 4)).unwrap_or(0), 512);
    let host_room = within(count_of(field(line, 5)).unwrap_or(0), 512);
    let mut kinds = [0u8; 512];
    let mut mapped = [false; 512];
    let mut starts = [0usize; 512];
    let mut lengths = [0usize; 512];
    let mut addresses = [0u64; 512];
    let mut words = [0u64; 512];
    let mut hosts = [0u64; 512];
    let answer = encoder_assemble::assemble_parts(
        source,
        prophets,
        &mut kinds[..entries],
        &mut mapped[..entries],
        &mut starts[..entries],
        &mut lengths[..entries],
        &mut addresses[..entries],
        &mut words[..word_room],
        &mut hosts[..host_room],
    );
    Assembled {
        found: ola_answers::assembly_out(answer),
        kinds,
        mapped,
        starts,
        lengths,
        addresses,
        words,
        hosts,
    }
}

// Assembling a source with the prophet list and the room of a line. Answers the refusal.
pub(crate) fn write_assemble(out: &mut impl Write, line: &[u8], source: &[u8]) -> io::Result<u64> {
    let mut list = [0u8; 16400];
    let prophets = unescape(field(line, 2), &mut list).ok_or(UNREAD)?;
    assemble(line, source, prophets).write(out, line, source)
}
