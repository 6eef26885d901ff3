// Assembling over a lent slice of label entries, over functions on parallel slices.
#![tactic(auto)]

ghost use Rattle.std.specs.Prelude.{◌≡◌, length};
ghost use Rattle.relocate.specs.Columns.{table_left};
ghost use Rattle.encoder.specs.Assemble.{numbered, assembled, assembled_totals, words_left, hosts_left};

use encoder::{AssembleRefusal, Totals};
use relocate::LabelEntry;

// Assembles a source with a prophet list: the label table, the words and the hosts.
// Promises: counts_answered, words_left_lem, table_left_lem, same_words, same_bytecode, one_program, words_ahead, accepted_has_rows, lengths_are_one,
// addresses_are_positions, instructions_stand, names_are_word_counts, table_is_positions, later_kept, kept_counted, rows_by_lines_lem, same_lines, room_is_built,
// room_refused, room_suffices, room_never_short, source_assembles, source_words_fit, source_reads_again, no_row_reads_so, source_same_words.
pub fn assemble(
    source: &[u8],
    prophets: &[u8],
    table: &mut [LabelEntry],
    words: &mut [u64],
    hosts: &mut [u64],
) -> Result<Totals, AssembleRefusal>
    ensures result_value { numbered result ≡ assembled_totals source.now prophets.now (record { entries = length table.old; words = length words.old; hosts = length hosts.old }) }
    ensures table_after { table.new ≡ table_left source.now table.old }
    ensures words_after { words.new ≡ words_left (assembled source.now prophets.now (record { entries = length table.old; words = length words.old; hosts = length hosts.old })) words.old }
    ensures hosts_after { hosts.new ≡ hosts_left (assembled source.now prophets.now (record { entries = length table.old; words = length words.old; hosts = length hosts.old })) hosts.old }
{
    let assembly = encoder_room::assemble_room(source, prophets, table.len(), words, hosts);
    // What refuses a table here has refused it there.
    let _ = relocate_entries::label_entries(source, table);
    assembly
}
