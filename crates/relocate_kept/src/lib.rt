// How many prophets of a list are kept.
#![tactic(auto)]

ghost use Rattle.std.specs.Prelude.{◌≡◌, true, ltb};
ghost use Rattle.std.specs.List.{list_all};
ghost use Rattle.relocate.specs.Prophets.{kept_count};

// The count kept, each host compared with those behind it: quadratic, so for a few. Many come here only with a host of 32,768 or more among them, and
// the library never finds one: a row has more than two bytes for each word that is counted, and a source at most 65,536.
fn kept_few(hosts: &[u64]) -> usize
    ensures { result ≡ kept_count hosts.now }
{
    let mut count: usize = 0;
    for (i, host) in hosts.iter().enumerate() {
        if !hosts[i + 1..].contains(host) {
            count += 1;
        }
    }
    count
}

// The count kept, from the last host to the first: one that has no mark yet is marked and counted. The mark of a host is bit host % 64 of word host / 64.
fn kept_many(hosts: &[u64]) -> usize
    requires { list_all (λ h. ltb h 32768) hosts.now ≡ true }
    ensures { result ≡ kept_count hosts.now }
{
    let mut marks = [0u64; 512];
    let mut count = 0;
    for &host in hosts.iter().rev() {
        let place = (host / 64) as usize;
        let shift = host % 64;
        let word = marks[place];
        if (word >> shift) % 2 == 0 {
            marks[place] = word + (1 << shift);
            count += 1;
        }
    }
    count
}

// How many prophets are kept, where of two on one host the later in the list is. For up to 16 no marks are cleared.
pub fn kept_count(hosts: &[u64]) -> usize
    ensures { result ≡ kept_count hosts.now }
{
    if hosts.len() > 16 && hosts.iter().all(|h| *h < 32768) {
        return kept_many(hosts);
    }
    kept_few(hosts)
}
