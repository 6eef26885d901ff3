// Names in the label table: the row that holds one, and the name of an entry.
#![tactic(auto)]

ghost use Rattle.std.specs.Prelude.{◌≡◌};
ghost use Rattle.text.specs.Bytes.{same};
ghost use Rattle.asm.specs.Parts.{name_part, name_at};
ghost use Rattle.relocate.specs.Columns.{entries_of, held_address};
ghost use Rattle.relocate_names.specs.Entries.{entry_count};
ghost use Rattle.relocate_names.specs.References.{reference_of, part_of};
ghost use Rattle.relocate_names.specs.Shortest.{shortest_of};

use relocate::{LabelEntry, WordAddress};

// The five columns of a label table, which has as many entries as the shortest of them.
#[derive(Clone, Copy)]
pub struct Columns<'a> {
    pub kinds: &'a [u8],
    pub mapped: &'a [bool],
    pub starts: &'a [usize],
    pub lengths: &'a [usize],
    pub addresses: &'a [u64],
}

impl<'a> Columns<'a> {
    // How many entries the table has.
    #[tactic(auto, using(crate::proofs::NameLaws::entries_length))]
    pub fn len(&self) -> usize
        ensures { result ≡ entry_count self.now }
    {
        shortest(
            self.kinds.len(),
            self.mapped.len(),
            self.starts.len(),
            self.lengths.len(),
            self.addresses.len(),
        )
    }
}

// The part of a source that starts at a place and has a length, the empty part at the source's start where it reaches past the source's end.
#[tactic(auto, using(crate::proofs::NameLaws::name_laws))]
pub fn name_at<'a>(source: &'a [u8], start: usize, length: usize) -> &'a [u8]
    ensures result_value { reference_of result ≡ part_of source.entry (name_part source.now start length) }
    ensures result_value_2 { result.now ≡ name_at source.now start length }
{
    // Not by `get`, whose clauses do not say where a part points, as result_value does.
    if source.len() < start || source.len() - start < length {
        return &source[..0];
    }
    &source[start..start + length]
}

// The name of a label table's entry, without its colon.
pub fn label_name<'a>(source: &'a [u8], entry: LabelEntry) -> &'a [u8]
    ensures result_value { reference_of result ≡ part_of source.entry (name_part source.now entry.start entry.length) }
    ensures result_value_2 { result.now ≡ name_at source.now entry.start entry.length }
{
    name_at(source, entry.start, entry.length)
}

// Whether the part of a source that starts at a place and has a length is the name.
pub fn same_name(source: &[u8], start: usize, length: usize, name: &[u8]) -> bool
    ensures { result ≡ same (name_at source.now start length) name.now }
{
    text::same_bytes(name_at(source, start, length), name)
}

// The shortest of the five columns' lengths.
pub fn shortest(a: usize, b: usize, c: usize, d: usize, e: usize) -> usize
    ensures { result ≡ shortest_of a b c d e }
{
    a.min(b).min(c).min(d).min(e)
}

// The address of the row that holds a name of a kind: the last mapped one.
#[tactic(auto, using(crate::proofs::NameLaws::held_laws))]
pub fn held_address(
    source: &[u8],
    kinds: &[u8],
    mapped: &[bool],
    starts: &[usize],
    lengths: &[usize],
    addresses: &[u64],
    kind: u8,
    name: &[u8],
) -> Option<WordAddress>
    ensures { result ≡ held_address source.now kind name.now (entries_of kinds.now mapped.now starts.now lengths.now addresses.now) }
{
    let n = shortest(
        kinds.len(),
        mapped.len(),
        starts.len(),
        lengths.len(),
        addresses.len(),
    );
    for i in (0..n).rev() {
        if mapped[i] && kinds[i] == kind && same_name(source, starts[i], lengths[i], name) {
            return Some(WordAddress::new(addresses[i]));
        }
    }
    None
}
