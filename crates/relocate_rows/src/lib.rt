// The label table row by row: the entry of a row, and how far a walk over the sorted rows has come after it. An address is known when its label is met; a label is mapped
// where an instruction is still to come, which the counts tell.
#![tactic(auto)]

ghost use Rattle.std.specs.Prelude.{◌≡◌};
ghost use Rattle.relocate_rows.specs.Entries.{entry_of_row, advanced};

use asm::AsmRow;
use relocate::{LabelEntry, LabelKind, WordAddress};

// The largest counts that a row is still added to.
const LARGEST_SEEN: usize = 9223372036854775807;

const LARGEST_ADDRESS: u64 = 9223372036854775807;

// How far the walk has come: the instructions met, the counted length so far, and the address of the last instruction.
#[derive(Clone, Copy)]
pub struct Progress {
    pub seen: usize,
    pub address: u64,
    pub host: u64,
}

// The entry of a row, where so many instructions stand in all rows: address 0 where none of them follows a label row.
pub fn row_entry(total: usize, progress: Progress, row: AsmRow) -> Option<LabelEntry>
    ensures { result ≡ entry_of_row total progress row }
{
    let (kind, start, length, address) = match row {
        AsmRow::Instruction(_) => return None,
        AsmRow::LabelCall { start, length } => (LabelKind::Call, start, length, progress.address),
        AsmRow::LabelJmp { start, length } => (LabelKind::Jmp, start, length, progress.address),
        AsmRow::LabelProphet { start, length } => (
            LabelKind::Prophet,
            start,
            length,
            progress.host,
        ),
    };
    let mapped = progress.seen < total;
    let address = WordAddress(if mapped { address } else { 0 });
    Some(LabelEntry {
        kind: kind as u8,
        mapped,
        start,
        length,
        address,
    })
}

// How far the walk has come after a row, or that a count is too large for one row more.
pub fn row_after(progress: Progress, row: AsmRow) -> Option<Progress>
    ensures { result ≡ advanced progress row }
{
    if LARGEST_SEEN < progress.seen || LARGEST_ADDRESS < progress.address {
        return None;
    }
    match row {
        AsmRow::Instruction(instruction) => {
            let length = asm_lengths::binary_length(instruction);
            Some(Progress {
                seen: progress.seen + 1,
                address: progress.address + length as u64,
                host: progress.address,
            })
        }
        _ => Some(progress),
    }
}
