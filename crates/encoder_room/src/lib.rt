// Assembling with a label table of the function's own: what `assemble` over a lent slice of entries works on.
#![tactic(auto)]

ghost use Rattle.std.specs.Prelude.{◌≡◌, ◌+◌, ◌*◌, ◌≤◌, length};
ghost use Rattle.encoder.specs.Assemble.{numbered, assembled, assembled_totals, words_left, hosts_left};

use encoder::{AssembleRefusal, Totals};

// Assembles a source as if the table had so many entries, with one of N. A label row has three bytes at least, so that N entries are enough for a source of 3 N + 1.
fn assemble_within<const N: usize>(
    source: &[u8],
    prophets: &[u8],
    room: usize,
    words: &mut [u64],
    hosts: &mut [u64],
) -> Result<Totals, AssembleRefusal>
    requires enough { length source.now ≤ 65536 → length source.now ≤ 3 * N + 1 }
    requires small { N ≤ 21846 }
    ensures result_value { numbered result ≡ assembled_totals source.now prophets.now (record { entries = room; words = length words.old; hosts = length hosts.old }) }
    ensures words_after { words.new ≡ words_left (assembled source.now prophets.now (record { entries = room; words = length words.old; hosts = length hosts.old })) words.old }
    ensures hosts_after { hosts.new ≡ hosts_left (assembled source.now prophets.now (record { entries = room; words = length words.old; hosts = length hosts.old })) hosts.old }
{
    let mut kinds = [0u8; N];
    let mut mapped = [false; N];
    let mut starts = [0usize; N];
    let mut lengths = [0usize; N];
    let mut addresses = [0u64; N];
    let n = room.min(N);
    encoder_assemble::assemble_parts(
        source,
        prophets,
        &mut kinds[..n],
        &mut mapped,
        &mut starts,
        &mut lengths,
        &mut addresses,
        words,
        hosts,
    )
}

// Assembles a source with a prophet list as if the label table had so many entries: the words and the hosts, and no table.
pub fn assemble_room(
    source: &[u8],
    prophets: &[u8],
    room: usize,
    words: &mut [u64],
    hosts: &mut [u64],
) -> Result<Totals, AssembleRefusal>
    ensures result_value { numbered result ≡ assembled_totals source.now prophets.now (record { entries = room; words = length words.old; hosts = length hosts.old }) }
    ensures words_after { words.new ≡ words_left (assembled source.now prophets.now (record { entries = room; words = length words.old; hosts = length hosts.old })) words.old }
    ensures hosts_after { hosts.new ≡ hosts_left (assembled source.now prophets.now (record { entries = room; words = length words.old; hosts = length hosts.old })) hosts.old }
{
    if source.len() <= 4096 {
        return assemble_within::<1366>(source, prophets, room, words, hosts);
    }
    assemble_within::<21846>(source, prophets, room, words, hosts)
}
