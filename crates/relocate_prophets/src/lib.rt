// The prophet list: refusals 8 and 9, and the host of each listed prophet.
#![tactic(auto)]

ghost use Rattle.std.specs.Prelude.{◌≡◌, ◌≤◌, length};
ghost use Rattle.std.proofs.lemmas.List.Edits.{sets};
ghost use Rattle.relocate.specs.Columns.{held_hosts_from, held_hosts, host_count, listed_numbered, hosts_put};
ghost use Rattle.relocate_chains.specs.ByChains.{by_chains};
ghost use Rattle.relocate_prophets.specs.Walk.{lines_from, line_from, labels_start, host_in, hosts_in, fits_in};

use relocate::{LabelKind, RelocateRefusal};
use relocate_chains::ChainedTable;
use text::{ByteClass, Line};

// The first line of a list that is not empty.
const LABEL: [u8; 5] = *b"label";

// The line of a list that starts at a place, and where the next one starts: line feeds part the lines, and nothing is trimmed.
#[tactic(auto, using(crate::proofs::LineLaws::line_laws))]
fn line_at(list: &[u8], at: usize) -> Line
    ensures { result ≡ line_from list.now at }
{
    if list.len() <= at {
        return Line {
            length: 0,
            next: at,
        };
    }
    let length = ByteClass::IsNot(b'\n').scan(&list[at..]);
    let end = at + length;
    if end == list.len() {
        return Line { length, next: end };
    }
    Line {
        length,
        next: end + 1,
    }
}

// Where the labels of a list start, or nothing for a list that is too long or has another first line.
#[tactic(auto, using(crate::proofs::LineLaws::start_laws))]
fn labels_start(list: &[u8]) -> Option<usize>
    ensures { result ≡ labels_start list.now }
{
    if 16384 < list.len() {
        return None;
    }
    if list.is_empty() {
        return Some(0);
    }
    let line = line_at(list, 0);
    text::same_bytes(&list[..line.length], &LABEL).then_some(line.next)
}

// How many labels stand in the list from a place on, or the first that no mapped prophet row names.
#[tactic(auto, using(crate::proofs::HostLaws::count_laws))]
fn check_labels(
    table: &ChainedTable,
    prophets: &[u8],
    start: usize,
) -> Result<usize, RelocateRefusal>
    ensures { listed_numbered result ≡ host_count (held_hosts_from (by_chains table.now) 0 (lines_from prophets.now start)) }
{
    let mut index: usize = 0;
    let mut at = start;
    // Each line tells where the next one starts.
    while at < prophets.len() {
        let line = line_at(prophets, at);
        let label = &prophets[at..at + line.length];
        if table
            .chained_address(LabelKind::Prophet as u8, label)
            .is_none()
        {
            return Err(RelocateRefusal::ProphetUnknown(index));
        }
        index += 1;
        at = line.next;
    }
    Ok(index)
}

// How many prophets a list names, or refusal 8 or 9.
#[tactic(auto, using(crate::proofs::HostLaws::head_laws))]
pub fn check_prophets(table: &ChainedTable, prophets: &[u8]) -> Result<usize, RelocateRefusal>
    ensures { listed_numbered result ≡ host_count (held_hosts (by_chains table.now) prophets.now) }
{
    let Some(start) = labels_start(prophets) else {
        return Err(RelocateRefusal::ProphetListMalformed);
    };
    check_labels(table, prophets, start)
}

// The host of a label, 0 where no mapped prophet row names it.
fn host_of(table: &ChainedTable, label: &[u8]) -> u64
    ensures { result ≡ host_in (by_chains table.now 2 label.now) }
{
    table
        .chained_address(LabelKind::Prophet as u8, label)
        .map_or(0, |address| address.0)
}

// Writes the host of each label that stands in the list from a place on.
#[tactic(auto, using(crate::proofs::HostLaws::put_laws))]
fn put_hosts(table: &ChainedTable, prophets: &[u8], start: usize, hosts: &mut [u64])
    requires { length (lines_from prophets.now start) ≤ length hosts.old }
    ensures { hosts.new ≡ sets hosts.old 0 (hosts_in (by_chains table.now) (lines_from prophets.now start)) }
{
    let mut written: usize = 0;
    let mut at = start;
    // Each line tells where the next one starts.
    while at < prophets.len() {
        let line = line_at(prophets, at);
        let label = &prophets[at..at + line.length];
        hosts[written] = host_of(table, label);
        written += 1;
        at = line.next;
    }
}

// Whether a list was accepted and names no more prophets than there is room for.
fn fits(listed: Result<usize, RelocateRefusal>, room: usize) -> bool
    ensures { result ≡ fits_in room (listed_numbered listed) }
{
    listed.is_ok_and(|count| count <= room)
}

// Writes the host of each listed prophet, in list order, from the start on; nothing where the list is refused or there is no room for all.
#[tactic(auto, using(crate::proofs::HostLaws::write_laws))]
pub fn write_hosts(table: &ChainedTable, prophets: &[u8], hosts: &mut [u64])
    ensures { hosts.new ≡ hosts_put (held_hosts (by_chains table.now) prophets.now) hosts.old }
{
    let listed = check_prophets(table, prophets);
    if fits(listed, hosts.len()) {
        if let Some(start) = labels_start(prophets) {
            put_hosts(table, prophets, start, hosts);
        }
    }
}
