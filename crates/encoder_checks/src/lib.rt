// Refusals 8 to 13 and 25 of assembling, each before a word is written: the names, memory operands, brackets, numbers and room of assembler/src/encoder.rs.
#![tactic(auto)]

ghost use Rattle.std.specs.Prelude.{◌≡◌};
ghost use Rattle.relocate_chains.specs.ByChains.{by_chains};
ghost use Rattle.encoder_checks.specs.Checked.{checked_numbered, rows_checked, checked_of};

use encoder::AssembleRefusal;
use relocate::Layout;
use relocate_chains::ChainedTable;

// Refusals 10 to 13 and 25 of a source whose label table is filled and whose list names so many prophets.
#[tactic(auto, using(crate::proofs::StageLaws::rows_laws))]
fn check_rows(
    table: &ChainedTable,
    layout: Layout,
    wordroom: usize,
    hostroom: usize,
    hosts: usize,
) -> Result<usize, AssembleRefusal>
    ensures { checked_numbered result ≡ rows_checked table.now.source.now (by_chains table.now) layout wordroom hostroom hosts }
{
    encoder_walks::resolve(table, layout.start, layout.end)?;
    if wordroom < layout.words || hostroom < hosts {
        return Err(AssembleRefusal::RoomTooShort);
    }
    Ok(hosts)
}

// Refusals 8 to 13 and 25 of a source whose label table is filled.
#[tactic(auto, using(crate::proofs::StageLaws::list_laws))]
pub fn check_all(
    table: &ChainedTable,
    prophets: &[u8],
    layout: Layout,
    wordroom: usize,
    hostroom: usize,
) -> Result<usize, AssembleRefusal>
    ensures { checked_numbered result ≡ checked_of table.now.source.now prophets.now (by_chains table.now) layout wordroom hostroom }
{
    let hosts = relocate_prophets::check_prophets(table, prophets).map_err(
        AssembleRefusal::Relocate,
    )?;
    check_rows(table, layout, wordroom, hostroom, hosts)
}
