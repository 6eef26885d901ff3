// Room, then assembling over parallel slices, on document 01's printing source: the figures before the build, the counts after it, the label table and
// the prophet's host; then builds on a meter. The README shows these calls.
#![tactic(auto)]

ghost use Rattle.std.specs.Prelude.{◌<◌};

use encoder::{AssembleRefusal, Totals};
use meter::Meter;
use relocate::{LabelEntry, RelocateRefusal, RoomFigures, WordAddress};
use std::io;

const SOURCE: [u8; 46] = *b"f:\nret\nmain:\nmov r1 -1\ncall f\n.PROPHET0_0:\nend";

const PROPHETS: [u8; 17] = *b"label\n.PROPHET0_0";

// A label table of eight entries, as its five columns.
#[derive(Drop)]
struct Table {
    kinds: [u8; 8],
    mapped: [bool; 8],
    starts: [usize; 8],
    lengths: [usize; 8],
    addresses: [u64; 8],
}

impl Table {
    // No entry yet.
    fn new() -> Table {
        Table {
            kinds: [0; 8],
            mapped: [false; 8],
            starts: [0; 8],
            lengths: [0; 8],
            addresses: [0; 8],
        }
    }

    // The entry at a place.
    fn entry(&self, i: usize) -> LabelEntry
        requires { i < 8 }
    {
        LabelEntry {
            kind: self.kinds[i],
            mapped: self.mapped[i],
            start: self.starts[i],
            length: self.lengths[i],
            address: WordAddress(self.addresses[i]),
        }
    }
}

// What a source takes.
fn print_room(rt: &impl Print, room: Result<RoomFigures, RelocateRefusal>) -> io::Result<()> {
    let Ok(figures) = room else {
        return println!(rt; "refused");
    };
    println!(rt; "{} label rows", figures.labels)?;
    println!(rt; "{} instructions", figures.instructions)?;
    println!(rt; "{} counted", figures.counted)?;
    println!(rt; "{} words", figures.words)
}

// The counts of an accepted source.
fn print_counts(rt: &impl Print, assembly: Result<Totals, AssembleRefusal>) -> io::Result<()> {
    let Ok(totals) = assembly else {
        return println!(rt; "refused");
    };
    println!(rt; "{} labels", totals.labels)?;
    println!(rt; "{} words", totals.words)?;
    println!(rt; "{} hosts", totals.hosts)?;
    println!(rt; "{} kept", totals.kept)
}

// The name and the address of an entry.
fn print_entry(rt: &impl Print, entry: LabelEntry) -> io::Result<()> {
    rt.write_all(relocate_names::label_name(&SOURCE, entry))?;
    println!(rt; " {}", entry.address.0)
}

// Builds a source without prophets on a meter, prints the total after it, and answers the meter.
fn build(rt: &impl Print, meter: Meter, source: &[u8]) -> io::Result<Meter> {
    let mut table = Table::new();
    let mut words = [0u64; 6];
    let mut hosts = [0u64; 1];
    let metered = meter_builds::build_parts(
        meter,
        source,
        b"",
        &mut table.kinds,
        &mut table.mapped,
        &mut table.starts,
        &mut table.lengths,
        &mut table.addresses,
        &mut words,
        &mut hosts,
    );
    let after = metered.meter;
    println!(rt; "{} words in all", after.total)?;
    Ok(after)
}

// Each build is on the meter that the last one answered: an accepted one, a refused one, the first again. Then one that reaches the stop.
fn print_totals(rt: &impl Print) -> io::Result<()> {
    let first = build(rt, Meter::open(), &SOURCE)?;
    let second = build(rt, first, b"main:\njmp g")?;
    build(rt, second, &SOURCE)?;
    let nearly_full = Meter {
        total: Meter::MOST - 1,
    };
    build(rt, nearly_full, &SOURCE)?;
    Ok(())
}

fn main(rt: HostRuntime) -> io::Result<()> {
    print_room(&rt, relocate_measure::room_of(&SOURCE))?;
    let mut table = Table::new();
    let mut words = [0u64; 6];
    let mut hosts = [0u64; 4];
    let assembly = encoder_assemble::assemble_parts(
        &SOURCE,
        &PROPHETS,
        &mut table.kinds,
        &mut table.mapped,
        &mut table.starts,
        &mut table.lengths,
        &mut table.addresses,
        &mut words,
        &mut hosts,
    );
    print_counts(&rt, assembly)?;
    for i in 0..3 {
        print_entry(&rt, table.entry(i))?;
    }
    println!(rt; "{} host", hosts[0])?;
    print_totals(&rt)
}
