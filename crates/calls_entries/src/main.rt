// Assembling over a table of entries, called on document 01's printing source: a local table is lent, and its third entry's name and address are printed.
#![tactic(auto)]

ghost use Rattle.std.specs.Prelude.{◌≡◌};
ghost use Rattle.relocate.specs.Columns.{table_left};
ghost use Rattle.calls_entries.specs.Table.{blanks, third};

use relocate::{LabelEntry, WordAddress};
use std::io;

const SOURCE: [u8; 46] = *b"f:\nret\nmain:\nmov r1 -1\ncall f\n.PROPHET0_0:\nend";

const PROPHETS: [u8; 17] = *b"label\n.PROPHET0_0";

// The third entry of the table that assembling leaves.
fn third_entry(source: &[u8], prophets: &[u8], words: &mut [u64], hosts: &mut [u64]) -> LabelEntry
    ensures { result ≡ third (table_left source.now blanks) }
{
    let blank = LabelEntry {
        kind: 0,
        mapped: false,
        start: 0,
        length: 0,
        address: WordAddress(0),
    };
    let mut table = [blank; 4];
    let _ = encoder_entries::assemble(source, prophets, &mut table, words, hosts);
    table[2]
}

fn main(rt: HostRuntime) -> io::Result<()> {
    let mut words = [0u64; 8];
    let mut hosts = [0u64; 2];
    let entry = third_entry(&SOURCE, &PROPHETS, &mut words, &mut hosts);
    rt.write_all(relocate_names::label_name(&SOURCE, entry))?;
    println!(rt; " {}", entry.address.0)
}
