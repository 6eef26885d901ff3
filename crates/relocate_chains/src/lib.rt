// Names found quickly in the label table. Its entries are chained by the bucket of their name: `chains` has a cell for each bucket, and after these one for each entry. A
// bucket's cell holds the place of its last entry, and an entry's cell the place of the entry before it in its bucket, each counted from 1, 0 where there is none.
#![tactic(auto)]

ghost use Rattle.std.specs.Prelude.{◌≡◌, ◌<◌, get_or};
ghost use Rattle.relocate_names.specs.Entries.{entries_in};
ghost use Rattle.relocate_chains.specs.Chains.{bucket_of, chains_left};
ghost use Rattle.relocate_chains.specs.ByChains.{by_chains};

use relocate::WordAddress;
use relocate_names::Columns;

// How many buckets there are.
const BUCKETS: usize = 1024;

// The bucket of a name.
fn bucket_of(name: &[u8]) -> usize
    ensures { (result ≡ bucket_of name.now) × (result < 1024) }
{
    let mut bucket: usize = 0;
    for &b in name {
        bucket = (bucket * 31 + usize::from(b)) % BUCKETS;
    }
    bucket
}

// The place that a cell holds, 0 past the last cell.
fn cell(chains: &[u16], at: usize) -> usize
    ensures { result ≡ get_or chains.now at 0 }
{
    chains.get(at).map_or(0, |&place| usize::from(place))
}

// Chains the entries of a label table, where no bucket has an entry yet. Chains that have no cell for each bucket and each entry are left as they are, and so are those of a
// table that has more entries than a cell can count.
#[tactic(auto, using(relocate_names::proofs::NameLaws::entries_length))]
pub fn chain_names(source: &[u8], columns: &Columns, chains: &mut [u16])
    ensures { chains.new ≡ chains_left source.now (entries_in columns.now) chains.old }
{
    let n = columns.len();
    let starts = columns.starts;
    let lengths = columns.lengths;
    if chains.len() < BUCKETS + n || 65535 < n {
        return;
    }
    for i in 0..n {
        let name = relocate_names::name_at(source, starts[i], lengths[i]);
        let bucket = bucket_of(name);
        chains[BUCKETS + i] = chains[bucket];
        chains[bucket] = (i + 1) as u16;
    }
}

// A label table whose entries are chained, and the source that its names stand in.
#[derive(Clone, Copy)]
pub struct ChainedTable<'a> {
    pub source: &'a [u8],
    pub columns: Columns<'a>,
    pub chains: &'a [u16],
}

impl<'a> ChainedTable<'a> {
    // The address of the row that holds a name of a kind, by the chains.
    #[tactic(auto, using(relocate_names::proofs::NameLaws::entries_length))]
    pub fn chained_address(&self, kind: u8, name: &[u8]) -> Option<WordAddress>
        ensures { result ≡ by_chains self.now kind name.now }
    {
        let Columns {
            kinds,
            mapped,
            starts,
            lengths,
            addresses,
        } = self.columns;
        let mut i = self.columns.len();
        let mut at = cell(self.chains, bucket_of(name));
        // No index is counted here: each cell tells the next place.
        while 0 < at {
            if i < at {
                return None;
            }
            i = at - 1;
            at = cell(self.chains, BUCKETS + i);
            if mapped[i]
                && kinds[i] == kind
                && relocate_names::same_name(self.source, starts[i], lengths[i], name)
            {
                return Some(WordAddress::new(addresses[i]));
            }
        }
        None
    }
}
