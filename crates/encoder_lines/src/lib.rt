// The canonical instruction of a line of the sorted source, its names looked up in the label table: assembler/src/encoder.rs.
#![tactic(auto)]

ghost use Rattle.std.specs.Prelude.{◌≡◌};
ghost use Rattle.relocate_chains.specs.ByChains.{by_chains};
ghost use Rattle.encoder_lines.specs.Lines.{canonical_line, canonical_at};

use asm::{AsmRow, LineRead, RowAt};
use encoder_canonical::CanonicalRefusal;
use program::BinaryInstruction;
use relocate_chains::ChainedTable;

// What a line becomes, nothing where it is no instruction row, and where the line after it starts.
#[derive(Clone, Copy)]
pub struct CanonicalAt {
    pub found: Result<Option<BinaryInstruction>, CanonicalRefusal>,
    pub next: usize,
}

// A line, nothing where it is no instruction row.
fn canonical_line(
    table: &ChainedTable,
    read: LineRead,
) -> Result<Option<BinaryInstruction>, CanonicalRefusal>
    ensures { result ≡ canonical_line table.now.source.now (by_chains table.now) read }
{
    let LineRead::Row(AsmRow::Instruction(instruction)) = read else {
        return Ok(None);
    };
    Ok(Some(encoder_canonical::canonical_of(table, instruction)?))
}

// The line at a place of the sorted source, where main's scope runs from start to end, and the place of the line after it.
pub fn canonical_at(table: &ChainedTable, start: usize, end: usize, at: usize) -> CanonicalAt
    ensures { result ≡ canonical_at table.now.source.now (by_chains table.now) start end at }
{
    let RowAt { read, next } = relocate_walk::sorted_row(table.source, start, end, at);
    CanonicalAt {
        found: canonical_line(table, read),
        next,
    }
}
