// The label table over a slice of entries: the entry of the next label row, one after the other.
#![tactic(auto)]

ghost use Rattle.std.specs.Prelude.{◌≡◌, false, ◌≤◌, length};
ghost use Rattle.relocate.specs.Layout.{measured, measured_numbered};
ghost use Rattle.relocate.specs.Columns.{table_left};
ghost use Rattle.relocate_rows.specs.Entries.{label_entry};
ghost use Rattle.relocate_entries.specs.Steps.{WalkFits, step_at, label_step, Fillable, entries_filled};

use asm::LineRead;
use relocate::{LabelEntry, Layout, RelocateRefusal, WordAddress};
use relocate_rows::Progress;

// How far a walk has come, and the place of the sorted source at which it goes on.
#[derive(Clone, Copy)]
pub struct Walk {
    pub progress: Progress,
    pub at: usize,
}

// The entry of the next label row, and how far the walk has come with it.
#[derive(Clone, Copy)]
pub struct LabelStep {
    pub entry: LabelEntry,
    pub walk: Walk,
}

// The step where no label row is left: an entry of nothing.
fn none_left(progress: Progress, at: usize) -> LabelStep
    ensures { result ≡ step_at (label_entry 0 false 0 0 0) progress at }
{
    let entry = LabelEntry {
        kind: 0,
        mapped: false,
        start: 0,
        length: 0,
        address: WordAddress(0),
    };
    let walk = Walk { progress, at };
    LabelStep { entry, walk }
}

// The entry of the next label row of a walk. Its counts are those of a source, so it is never beyond.
#[tactic(auto, using(crate::proofs::NextLaws::next_laws))]
fn next_label(source: &[u8], layout: Layout, walk: Walk) -> LabelStep
    requires { WalkFits source.now layout walk }
    ensures { result ≡ label_step source.now layout walk }
{
    let mut progress = walk.progress;
    let mut at = walk.at;
    while at < source.len() {
        let line = relocate_walk::sorted_row(source, layout.start, layout.end, at);
        at = line.next;
        let LineRead::Row(row) = line.read else {
            continue;
        };
        let found = relocate_rows::row_entry(layout.instructions, progress, row);
        let Some(further) = relocate_rows::row_after(progress, row) else {
            continue;
        };
        progress = further;
        if let Some(entry) = found {
            return LabelStep {
                entry,
                walk: Walk { progress, at },
            };
        }
    }
    none_left(progress, at)
}

// Fills the first n entries of a table, one for each label row in sorted order.
#[tactic(auto, using(crate::proofs::FillLaws::fill_laws))]
fn fill_entries(source: &[u8], layout: Layout, n: usize, table: &mut [LabelEntry])
    requires { (n ≤ length table.old) × Fillable source.now layout n }
    ensures { table.new ≡ entries_filled source.now layout table.old n }
{
    let mut walk = Walk {
        progress: Progress {
            seen: 0,
            address: 0,
            host: 0,
        },
        at: 0,
    };
    for i in 0..n {
        let step = next_label(source, layout, walk);
        table[i] = step.entry;
        walk = step.walk;
    }
}

// Refusals 1 to 7, 7 where the table is too short, and else the label table, one entry for each label row in sorted order.
pub fn label_entries(source: &[u8], table: &mut [LabelEntry]) -> Result<Layout, RelocateRefusal>
    ensures result_value { measured_numbered result ≡ measured source.now (length table.old) }
    ensures table_after { table.new ≡ table_left source.now table.old }
{
    let layout = relocate_measure::measure(source, table.len())?;
    fill_entries(source, layout, layout.labels, table);
    Ok(layout)
}
