// The exports of the C interface: include/ola.h declares these functions. Each calls its function of ola_c, with the same contract.
#![tactic(auto)]

ghost use Rattle.std.specs.Prelude.{◌≡◌, length};
ghost use Rattle.asm.specs.Parts.{name_part};
ghost use Rattle.relocate.specs.Relocate.{tabled};
ghost use Rattle.relocate.specs.Room.{room_of};
ghost use Rattle.relocate.specs.Columns.{table_left, column_left, kind_of, mapped_of, start_of, length_of, address_in};
ghost use Rattle.relocate_names.specs.Shortest.{shortest_of};
ghost use Rattle.program.specs.Bytecode.{bytecode_written, text_left};
ghost use Rattle.program_bytecode.specs.Written.{count_of};
ghost use Rattle.encoder.specs.Assemble.{assembled, assembled_totals, words_left, hosts_left};
ghost use Rattle.meter.specs.Meter.{at_start, meter_after};
ghost use Rattle.meter_builds.specs.Lent.{lent_in, room_in, lent_left};
ghost use Rattle.decoder.specs.Open.{opened};
ghost use Rattle.decoder.specs.Steps.{accepted_of, stepped, stepped_at};
ghost use Rattle.source.specs.SourceText.{source_written};
ghost use Rattle.ola_places.specs.Places.{instruction_in};
ghost use Rattle.ola_answers.specs.Answers.{assembly_of, metered_of, figures_out, written_of, name_of};
ghost use Rattle.ola_steps.specs.Steps.{opened_of};
ghost use Rattle.ola_c.specs.Exports.{version, line_step, offset_step, encoding_named, listed, listed_text};

use meter::Meter;
use ola_answers::{OlaAssembly, OlaEncoding, OlaMetered, OlaName, OlaRoom, OlaWritten};
use ola_places::OlaInstruction;
use ola_steps::{OlaOpened, OlaStep};
use relocate::LabelEntry;

// As `ola_c::ola_version`.
#[unsafe(no_mangle)]
pub extern "C" fn ola_version() -> u64
    ensures { result ≡ version }
{
    ola_c::ola_version()
}

// As `ola_c::ola_room_of`.
#[unsafe(no_mangle)]
pub extern "C" fn ola_room_of(source: &[u8]) -> OlaRoom
    ensures { result ≡ figures_out (room_of source.now) }
{
    ola_c::ola_room_of(source)
}

// As `ola_c::ola_assemble_parts`.
#[unsafe(no_mangle)]
pub extern "C" fn ola_assemble_parts(
    source: &[u8],
    prophets: &[u8],
    kinds: &mut [u8],
    mapped: &mut [bool],
    starts: &mut [usize],
    lengths: &mut [usize],
    addresses: &mut [u64],
    words: &mut [u64],
    hosts: &mut [u64],
) -> OlaAssembly
    ensures value { result ≡ assembly_of (assembled_totals source.now prophets.now (record { entries = (shortest_of (length kinds.old) (length mapped.old) (length starts.old) (length lengths.old) (length addresses.old)); words = length words.old; hosts = length hosts.old })) }
    ensures kinds_after { kinds.new ≡ column_left (tabled source.now (shortest_of (length kinds.old) (length mapped.old) (length starts.old) (length lengths.old) (length addresses.old))) kind_of kinds.old }
    ensures mapped_after { mapped.new ≡ column_left (tabled source.now (shortest_of (length kinds.old) (length mapped.old) (length starts.old) (length lengths.old) (length addresses.old))) mapped_of mapped.old }
    ensures starts_after { starts.new ≡ column_left (tabled source.now (shortest_of (length kinds.old) (length mapped.old) (length starts.old) (length lengths.old) (length addresses.old))) start_of starts.old }
    ensures lengths_after { lengths.new ≡ column_left (tabled source.now (shortest_of (length kinds.old) (length mapped.old) (length starts.old) (length lengths.old) (length addresses.old))) length_of lengths.old }
    ensures addresses_after { addresses.new ≡ column_left (tabled source.now (shortest_of (length kinds.old) (length mapped.old) (length starts.old) (length lengths.old) (length addresses.old))) address_in addresses.old }
    ensures words_after { words.new ≡ words_left (assembled source.now prophets.now (record { entries = (shortest_of (length kinds.old) (length mapped.old) (length starts.old) (length lengths.old) (length addresses.old)); words = length words.old; hosts = length hosts.old })) words.old }
    ensures hosts_after { hosts.new ≡ hosts_left (assembled source.now prophets.now (record { entries = (shortest_of (length kinds.old) (length mapped.old) (length starts.old) (length lengths.old) (length addresses.old)); words = length words.old; hosts = length hosts.old })) hosts.old }
{
    ola_c::ola_assemble_parts(
        source, prophets, kinds, mapped, starts, lengths, addresses, words, hosts,
    )
}

// As `ola_c::ola_assemble`.
#[unsafe(no_mangle)]
pub extern "C" fn ola_assemble(
    source: &[u8],
    prophets: &[u8],
    table: &mut [LabelEntry],
    words: &mut [u64],
    hosts: &mut [u64],
) -> OlaAssembly
    ensures value { result ≡ assembly_of (assembled_totals source.now prophets.now (record { entries = length table.old; words = length words.old; hosts = length hosts.old })) }
    ensures table_after { table.new ≡ table_left source.now table.old }
    ensures words_after { words.new ≡ words_left (assembled source.now prophets.now (record { entries = length table.old; words = length words.old; hosts = length hosts.old })) words.old }
    ensures hosts_after { hosts.new ≡ hosts_left (assembled source.now prophets.now (record { entries = length table.old; words = length words.old; hosts = length hosts.old })) hosts.old }
{
    ola_c::ola_assemble(source, prophets, table, words, hosts)
}

// As `ola_c::ola_meter_open`.
#[unsafe(no_mangle)]
pub extern "C" fn ola_meter_open() -> Meter
    ensures { result ≡ at_start }
{
    ola_c::ola_meter_open()
}

// As `ola_c::ola_meter_build`.
#[unsafe(no_mangle)]
pub extern "C" fn ola_meter_build(
    meter: Meter,
    source: &[u8],
    prophets: &[u8],
    kinds: &mut [u8],
    mapped: &mut [bool],
    starts: &mut [usize],
    lengths: &mut [usize],
    addresses: &mut [u64],
    words: &mut [u64],
    hosts: &mut [u64],
) -> OlaMetered
    ensures value { result ≡ metered_of (assembled_totals source.now prophets.now (room_in (lent_in kinds.entry mapped.entry starts.entry lengths.entry addresses.entry words.entry hosts.entry))) (meter_after meter (assembled source.now prophets.now (room_in (lent_in kinds.entry mapped.entry starts.entry lengths.entry addresses.entry words.entry hosts.entry)))) }
    ensures hosts_value { lent_in kinds.exit mapped.exit starts.exit lengths.exit addresses.exit words.exit hosts.exit ≡ lent_left source.now prophets.now (lent_in kinds.entry mapped.entry starts.entry lengths.entry addresses.entry words.entry hosts.entry) }
{
    ola_c::ola_meter_build(
        meter, source, prophets, kinds, mapped, starts, lengths, addresses, words, hosts,
    )
}

// As `ola_c::ola_label_name`.
#[unsafe(no_mangle)]
pub extern "C" fn ola_label_name(source: &[u8], entry: LabelEntry) -> OlaName
    ensures { result ≡ name_of (name_part source.now entry.start entry.length) }
{
    ola_c::ola_label_name(source, entry)
}

// As `ola_c::ola_write_bytecode`.
#[unsafe(no_mangle)]
pub extern "C" fn ola_write_bytecode(words: &[u64], text: &mut [u8]) -> OlaWritten
    ensures value { result ≡ written_of (count_of (bytecode_written words.now (length text.old))) }
    ensures text_after { text.new ≡ text_left (bytecode_written words.now (length text.old)) text.old }
{
    ola_c::ola_write_bytecode(words, text)
}

// As `ola_c::ola_write_source`.
#[unsafe(no_mangle)]
pub extern "C" fn ola_write_source(bytecode: &[u8], text: &mut [u8]) -> OlaWritten
    ensures value { result ≡ written_of (count_of (source_written bytecode.now (length text.old))) }
    ensures text_after { text.new ≡ text_left (source_written bytecode.now (length text.old)) text.old }
{
    ola_c::ola_write_source(bytecode, text)
}

// As `ola_c::ola_open`.
#[unsafe(no_mangle)]
pub extern "C" fn ola_open(text: &[u8]) -> OlaOpened
    ensures { result ≡ opened_of (accepted_of (opened text.now)) }
{
    ola_c::ola_open(text)
}

// As `ola_c::ola_next`.
#[unsafe(no_mangle)]
pub extern "C" fn ola_next(text: &[u8], line: usize) -> OlaStep
    ensures { result ≡ line_step (stepped text.now line) }
{
    ola_c::ola_next(text, line)
}

// As `ola_c::ola_next_at`.
#[unsafe(no_mangle)]
pub extern "C" fn ola_next_at(text: &[u8], offset: usize) -> OlaStep
    ensures { result ≡ offset_step (stepped_at text.now offset) }
{
    ola_c::ola_next_at(text, offset)
}

// As `ola_c::ola_encode`.
#[unsafe(no_mangle)]
pub extern "C" fn ola_encode(instruction: OlaInstruction) -> OlaEncoding
    ensures { result ≡ encoding_named (instruction_in instruction) }
{
    ola_c::ola_encode(instruction)
}

// As `ola_c::ola_listing_row`.
#[unsafe(no_mangle)]
pub extern "C" fn ola_listing_row(instruction: OlaInstruction, text: &mut [u8]) -> OlaWritten
    ensures value { result ≡ listed (instruction_in instruction) (length text.old) }
    ensures text_after { text.new ≡ listed_text (instruction_in instruction) text.old }
{
    ola_c::ola_listing_row(instruction, text)
}
