// What assembling answers for a source that it accepts.
#![tactic(auto)]

ghost use Rattle.std.specs.Prelude.{◌≡◌, length, Ok};
ghost use Rattle.relocate.specs.Prophets.{kept_count};

use encoder::{AssembleRefusal, Totals};
use relocate::Layout;

// The counts of an accepted source: label rows and words as it is laid out, hosts as they were written, and those that are kept.
pub fn totals(layout: Layout, hosts: &[u64]) -> Result<Totals, AssembleRefusal>
    ensures { result ≡ Ok (record { labels = layout.labels; words = layout.words; hosts = length hosts.now; kept = kept_count hosts.now }) }
{
    let kept = relocate_kept::kept_count(hosts);
    Ok(Totals {
        labels: layout.labels,
        words: layout.words,
        hosts: hosts.len(),
        kept,
    })
}
