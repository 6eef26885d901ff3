// A build on a meter: assembling over parallel slices, and the meter after it.
#![tactic(auto)]

ghost use Rattle.std.specs.Prelude.{◌≡◌};
ghost use Rattle.encoder.specs.Assemble.{numbered, assembled, assembled_totals};
ghost use Rattle.meter.specs.Meter.{meter_after};
ghost use Rattle.meter_builds.specs.Lent.{lent_in, room_in, lent_left};

use meter::{Meter, Metered};

// Assembles a source as `assemble_parts` does, and counts the words of an accepted build on the meter given, which may be any.
// Promises: meter_counts, meter_from, meter_kept, and those of `assemble_parts`: its answer, and what is left, are the same.
pub fn build_parts(
    meter: Meter,
    source: &[u8],
    prophets: &[u8],
    kinds: &mut [u8],
    mapped: &mut [bool],
    starts: &mut [usize],
    lengths: &mut [usize],
    addresses: &mut [u64],
    words: &mut [u64],
    hosts: &mut [u64],
) -> Metered
    ensures assembly_value { numbered result.assembly ≡ assembled_totals source.now prophets.now (room_in (lent_in kinds.entry mapped.entry starts.entry lengths.entry addresses.entry words.entry hosts.entry)) }
    ensures meter_value { result.meter ≡ meter_after meter (assembled source.now prophets.now (room_in (lent_in kinds.entry mapped.entry starts.entry lengths.entry addresses.entry words.entry hosts.entry))) }
    ensures hosts_value { lent_in kinds.exit mapped.exit starts.exit lengths.exit addresses.exit words.exit hosts.exit ≡ lent_left source.now prophets.now (lent_in kinds.entry mapped.entry starts.entry lengths.entry addresses.entry words.entry hosts.entry) }
{
    let assembly = encoder_assemble::assemble_parts(
        source, prophets, kinds, mapped, starts, lengths, addresses, words, hosts,
    );
    Metered {
        assembly,
        meter: meter.after(assembly),
    }
}
