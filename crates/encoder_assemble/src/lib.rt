// Assembling over parallel slices: `encode_to_binary` of assembler/src/encoder.rs, each step a function of its own.
#![tactic(auto)]

ghost use Rattle.std.specs.Prelude.{◌≡◌, ◌+◌, ◌≤◌, length, take, Ok};
ghost use Rattle.std.proofs.lemmas.List.Edits.{sets};
ghost use Rattle.relocate.specs.Layout.{sorted_instructions};
ghost use Rattle.relocate.specs.Columns.{entries_of, looked_in};
ghost use Rattle.relocate_names.specs.Entries.{entries_in};
ghost use Rattle.relocate_chains.specs.ByChains.{by_chains};
ghost use Rattle.program.specs.Words.{words_of};
ghost use Rattle.text.specs.Answer.{ok};
ghost use Rattle.relocate.specs.Labels.{table_of};
ghost use Rattle.relocate.specs.Prophets.{kept_count};
ghost use Rattle.relocate.specs.Relocate.{tabled};
ghost use Rattle.relocate.specs.Columns.{column_left, kind_of, mapped_of, start_of, length_of, address_in};
ghost use Rattle.relocate.specs.Layout.{measured, layout_rows};
ghost use Rattle.relocate_names.specs.Shortest.{shortest_of};
ghost use Rattle.encoder.specs.Assemble.{numbered, encoded_rows, assembled, assembled_totals, words_left, hosts_left};
ghost use Rattle.encoder_assemble.specs.Written.{held_words};
ghost use Rattle.encoder_assemble.specs.Encoded.{encoded_totals};

use encoder::{AssembleRefusal, Totals};
use encoder_lines::CanonicalAt;
use program::BinaryInstruction;
use relocate::Layout;
use relocate_chains::ChainedTable;
use relocate_names::Columns;

// Writes the words of an instruction from place n on, and answers the place after them.
#[tactic(auto, using(crate::proofs::WriteLaws::put_laws))]
fn put_words(instruction: BinaryInstruction, n: usize, words: &mut [u64]) -> usize
    requires { n + length (words_of instruction) ≤ length words.old }
    ensures value { result ≡ n + length (words_of instruction) }
    ensures words_after { words.new ≡ sets words.old n (words_of instruction) }
{
    words[n] = program_words::first_word(instruction);
    match program_words::second_word(instruction) {
        Some(number) => {
            words[n + 1] = number;
            n + 2
        }
        None => n + 1,
    }
}

// Writes the words of a source, where main's scope runs from start to end, from the first entry on.
#[tactic(auto, using(crate::proofs::WriteLaws::write_laws))]
fn write_words(table: &ChainedTable, start: usize, end: usize, words: &mut [u64])
    requires start_le_end { (start ≤ end) × (end ≤ length table.now.source.now) }
    requires end_in_bounds { length (held_words table.now.source.now (by_chains table.now) (sorted_instructions table.now.source.now start end)) ≤ length words.old }
    ensures { words.new ≡ sets words.old 0 (held_words table.now.source.now (by_chains table.now) (sorted_instructions table.now.source.now start end)) }
{
    let mut at: usize = 0;
    let mut written: usize = 0;
    // Each line tells where the next one starts.
    while at < table.source.len() {
        let CanonicalAt { found, next } = encoder_lines::canonical_at(table, start, end, at);
        at = next;
        if let Ok(Some(instruction)) = found {
            written = put_words(instruction, written, words);
        }
    }
}

// The counts of an accepted source, whose hosts are written.
fn counts(layout: Layout, count: usize, hosts: &[u64]) -> Result<Totals, AssembleRefusal>
    requires { count ≤ length hosts.now }
    ensures { result ≡ Ok (record { labels = layout.labels; words = layout.words; hosts = count; kept = kept_count (take count hosts.now) }) }
{
    encoder_counts::totals(layout, &hosts[..count])
}

// Refusals 8 to 13 and 25, and else the words and hosts, of a source whose label table is filled and chained.
fn encode_filled(
    table: &ChainedTable,
    prophets: &[u8],
    room: usize,
    layout: Layout,
    words: &mut [u64],
    hosts: &mut [u64],
) -> Result<Totals, AssembleRefusal>
    requires room_value { measured table.now.source.now room ≡ ok layout }
    requires chains_value { by_chains table.now ≡ looked_in table.now.source.now (table_of (layout_rows table.now.source.now layout)) }
    ensures result_value { numbered result ≡ encoded_totals table.now.source.now (layout_rows table.now.source.now layout) prophets.now (record { entries = room; words = length words.old; hosts = length hosts.old }) }
    ensures words_after { words.new ≡ words_left (encoded_rows table.now.source.now (layout_rows table.now.source.now layout) prophets.now (record { entries = room; words = length words.old; hosts = length hosts.old })) words.old }
    ensures hosts_after { hosts.new ≡ hosts_left (encoded_rows table.now.source.now (layout_rows table.now.source.now layout) prophets.now (record { entries = room; words = length words.old; hosts = length hosts.old })) hosts.old }
{
    let count = encoder_checks::check_all(table, prophets, layout, words.len(), hosts.len())?;
    write_words(table, layout.start, layout.end, words);
    relocate_prophets::write_hosts(table, prophets, hosts);
    counts(layout, count, hosts)
}

// The same of a source whose label table is filled and has no more entries: its chains are made here. 65,536 bytes have 21,845 label rows at most.
fn encode_chained(
    source: &[u8],
    prophets: &[u8],
    columns: &Columns,
    room: usize,
    layout: Layout,
    words: &mut [u64],
    hosts: &mut [u64],
) -> Result<Totals, AssembleRefusal>
    requires room_value { measured source.now room ≡ ok layout }
    requires addresses_value { entries_in columns.now ≡ table_of (layout_rows source.now layout) }
    ensures result_value { numbered result ≡ encoded_totals source.now (layout_rows source.now layout) prophets.now (record { entries = room; words = length words.old; hosts = length hosts.old }) }
    ensures words_after { words.new ≡ words_left (encoded_rows source.now (layout_rows source.now layout) prophets.now (record { entries = room; words = length words.old; hosts = length hosts.old })) words.old }
    ensures hosts_after { hosts.new ≡ hosts_left (encoded_rows source.now (layout_rows source.now layout) prophets.now (record { entries = room; words = length words.old; hosts = length hosts.old })) hosts.old }
{
    let mut chains = [0u16; 22870];
    relocate_chains::chain_names(source, columns, &mut chains);
    let table = ChainedTable {
        source,
        columns: *columns,
        chains: &chains,
    };
    encode_filled(&table, prophets, room, layout, words, hosts)
}

// The same, where the table's slices may have more entries than the source has label rows.
fn encode_table(
    source: &[u8],
    prophets: &[u8],
    columns: &Columns,
    room: usize,
    layout: Layout,
    words: &mut [u64],
    hosts: &mut [u64],
) -> Result<Totals, AssembleRefusal>
    requires room_value { measured source.now room ≡ ok layout }
    requires labels_in_bounds { (layout.labels ≤ length columns.now.kinds.now) × (layout.labels ≤ length columns.now.mapped.now) × (layout.labels ≤ length columns.now.starts.now) × (layout.labels ≤ length columns.now.lengths.now) × (layout.labels ≤ length columns.now.addresses.now) }
    requires addresses_value { entries_of (take layout.labels columns.now.kinds.now) (take layout.labels columns.now.mapped.now) (take layout.labels columns.now.starts.now) (take layout.labels columns.now.lengths.now) (take layout.labels columns.now.addresses.now) ≡ table_of (layout_rows source.now layout) }
    ensures result_value { numbered result ≡ encoded_totals source.now (layout_rows source.now layout) prophets.now (record { entries = room; words = length words.old; hosts = length hosts.old }) }
    ensures words_after { words.new ≡ words_left (encoded_rows source.now (layout_rows source.now layout) prophets.now (record { entries = room; words = length words.old; hosts = length hosts.old })) words.old }
    ensures hosts_after { hosts.new ≡ hosts_left (encoded_rows source.now (layout_rows source.now layout) prophets.now (record { entries = room; words = length words.old; hosts = length hosts.old })) hosts.old }
{
    let n = layout.labels;
    encode_chained(
        source,
        prophets,
        &Columns {
            kinds: &columns.kinds[..n],
            mapped: &columns.mapped[..n],
            starts: &columns.starts[..n],
            lengths: &columns.lengths[..n],
            addresses: &columns.addresses[..n],
        },
        room,
        layout,
        words,
        hosts,
    )
}

// Assembles a source with a prophet list: the label table into the five slices, 7 where the shortest is too short, the words and the hosts.
// Promises: counts_answered, words_left_lem, columns_left_lem, same_words, same_bytecode, one_program, words_ahead, accepted_has_rows, lengths_are_one,
// addresses_are_positions, instructions_stand, names_are_word_counts, table_is_positions, later_kept, kept_counted, rows_by_lines_lem, same_lines, room_is_built,
// room_refused, room_suffices, room_never_short, source_assembles, source_words_fit, source_reads_again, no_row_reads_so, source_same_words.
pub fn assemble_parts(
    source: &[u8],
    prophets: &[u8],
    kinds: &mut [u8],
    mapped: &mut [bool],
    starts: &mut [usize],
    lengths: &mut [usize],
    addresses: &mut [u64],
    words: &mut [u64],
    hosts: &mut [u64],
) -> Result<Totals, AssembleRefusal>
    ensures result_value { numbered result ≡ assembled_totals source.now prophets.now (record { entries = shortest_of (length kinds.old) (length mapped.old) (length starts.old) (length lengths.old) (length addresses.old); words = length words.old; hosts = length hosts.old }) }
    ensures kinds_after { kinds.new ≡ column_left (tabled source.now (shortest_of (length kinds.old) (length mapped.old) (length starts.old) (length lengths.old) (length addresses.old))) kind_of kinds.old }
    ensures mapped_after { mapped.new ≡ column_left (tabled source.now (shortest_of (length kinds.old) (length mapped.old) (length starts.old) (length lengths.old) (length addresses.old))) mapped_of mapped.old }
    ensures starts_after { starts.new ≡ column_left (tabled source.now (shortest_of (length kinds.old) (length mapped.old) (length starts.old) (length lengths.old) (length addresses.old))) start_of starts.old }
    ensures lengths_after { lengths.new ≡ column_left (tabled source.now (shortest_of (length kinds.old) (length mapped.old) (length starts.old) (length lengths.old) (length addresses.old))) length_of lengths.old }
    ensures addresses_after { addresses.new ≡ column_left (tabled source.now (shortest_of (length kinds.old) (length mapped.old) (length starts.old) (length lengths.old) (length addresses.old))) address_in addresses.old }
    ensures words_after { words.new ≡ words_left (assembled source.now prophets.now (record { entries = shortest_of (length kinds.old) (length mapped.old) (length starts.old) (length lengths.old) (length addresses.old); words = length words.old; hosts = length hosts.old })) words.old }
    ensures hosts_after { hosts.new ≡ hosts_left (assembled source.now prophets.now (record { entries = shortest_of (length kinds.old) (length mapped.old) (length starts.old) (length lengths.old) (length addresses.old); words = length words.old; hosts = length hosts.old })) hosts.old }
{
    let room = relocate_names::shortest(
        kinds.len(),
        mapped.len(),
        starts.len(),
        lengths.len(),
        addresses.len(),
    );
    let layout = relocate_table::label_table(
        source, kinds, mapped, starts, lengths, addresses,
    ).map_err(AssembleRefusal::Relocate)?;
    let columns = Columns {
        kinds,
        mapped,
        starts,
        lengths,
        addresses,
    };
    encode_table(source, prophets, &columns, room, layout, words, hosts)
}
