// The label table over parallel slices: one walk over the sorted rows.
#![tactic(auto)]

ghost use Rattle.std.specs.Prelude.{◌≡◌, ◌+◌, ◌≤◌, length, ◌∷◌, []};
ghost use Rattle.text.specs.Answer.{ok};
ghost use Rattle.relocate.specs.Layout.{measured, measured_numbered};
ghost use Rattle.relocate.specs.Relocate.{tabled};
ghost use Rattle.relocate.specs.Columns.{column_left, kind_of, mapped_of, start_of, length_of, address_in};
ghost use Rattle.relocate_names.specs.Shortest.{shortest_of};
ghost use Rattle.relocate_table.specs.Filled.{Holds, SameSlices, Puts, Left};
ghost use Rattle.relocate_rows.specs.Entries.{after, largest_count};

use asm::{AsmRow, LineRead};
use relocate::{LabelEntry, Layout, RelocateRefusal};
use relocate_rows::Progress;

// How far the walk has come after a row. Its counts are those of a source, so it is never beyond.
fn advance(progress: Progress, row: AsmRow) -> Progress
    requires { (progress.seen ≤ largest_count) × (progress.address ≤ largest_count) }
    ensures { result ≡ after progress row }
{
    relocate_rows::row_after(progress, row).unwrap_or(progress)
}

// The five columns of a label table, as they are filled.
#[derive(Drop)]
struct ColumnsMut<'a> {
    kinds: &'a mut [u8],
    mapped: &'a mut [bool],
    starts: &'a mut [usize],
    lengths: &'a mut [usize],
    addresses: &'a mut [u64],
}

impl<'a> ColumnsMut<'a> {
    // Writes an entry at place n of each column.
    fn put(&mut self, n: usize, entry: LabelEntry)
        requires in_bounds { Holds self.old (n + 1) }
        ensures same_slices { SameSlices self.old self.new }
        ensures columns_after { Puts self.old self.new n (entry ∷ []) }
    {
        self.kinds[n] = entry.kind;
        self.mapped[n] = entry.mapped;
        self.starts[n] = entry.start;
        self.lengths[n] = entry.length;
        self.addresses[n] = entry.address.0;
    }

    // Fills the columns with the table of a source that passes refusals 1 to 7.
    fn fill(&mut self, source: &[u8], room: usize, layout: Layout)
        requires room_value { measured source.now room ≡ ok layout }
        requires room_in_bounds { Holds self.old room }
        ensures same_slices { SameSlices self.old self.new }
        ensures columns_after { Left self.old self.new (tabled source.now room) }
    {
        let mut progress = Progress {
            seen: 0,
            address: 0,
            host: 0,
        };
        let mut n: usize = 0;
        let mut at: usize = 0;
        while at < source.len() {
            let line = relocate_walk::sorted_row(source, layout.start, layout.end, at);
            at = line.next;
            if let LineRead::Row(row) = line.read {
                if let Some(entry) = relocate_rows::row_entry(layout.instructions, progress, row) {
                    self.put(n, entry);
                    n += 1;
                }
                progress = advance(progress, row);
            }
        }
    }
}

// Refusals 1 to 7, 7 where the shortest of the slices is too short, and else the label table: kind, whether it is mapped, start and length of
// the name in the source, and address, one entry for each label row in sorted order.
#[tactic(auto, using(crate::proofs::TableLaws::table_laws))]
pub fn label_table(
    source: &[u8],
    kinds: &mut [u8],
    mapped: &mut [bool],
    starts: &mut [usize],
    lengths: &mut [usize],
    addresses: &mut [u64],
) -> Result<Layout, RelocateRefusal>
    ensures result_value { measured_numbered result ≡ measured source.now (shortest_of (length kinds.old) (length mapped.old) (length starts.old) (length lengths.old) (length addresses.old)) }
    ensures kinds_after { kinds.new ≡ column_left (tabled source.now (shortest_of (length kinds.old) (length mapped.old) (length starts.old) (length lengths.old) (length addresses.old))) kind_of kinds.old }
    ensures mapped_after { mapped.new ≡ column_left (tabled source.now (shortest_of (length kinds.old) (length mapped.old) (length starts.old) (length lengths.old) (length addresses.old))) mapped_of mapped.old }
    ensures starts_after { starts.new ≡ column_left (tabled source.now (shortest_of (length kinds.old) (length mapped.old) (length starts.old) (length lengths.old) (length addresses.old))) start_of starts.old }
    ensures lengths_after { lengths.new ≡ column_left (tabled source.now (shortest_of (length kinds.old) (length mapped.old) (length starts.old) (length lengths.old) (length addresses.old))) length_of lengths.old }
    ensures addresses_after { addresses.new ≡ column_left (tabled source.now (shortest_of (length kinds.old) (length mapped.old) (length starts.old) (length lengths.old) (length addresses.old))) address_in addresses.old }
{
    let room = relocate_names::shortest(
        kinds.len(),
        mapped.len(),
        starts.len(),
        lengths.len(),
        addresses.len(),
    );
    let layout = relocate_measure::measure(source, room)?;
    let mut columns = ColumnsMut {
        kinds,
        mapped,
        starts,
        lengths,
        addresses,
    };
    columns.fill(source, room, layout);
    Ok(layout)
}
