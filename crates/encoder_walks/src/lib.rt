// Refusals 10 to 12 and 25: one walk over the canonical instructions in sorted order, the names looked up in the label table.
#![tactic(auto)]

ghost use Rattle.std.specs.Prelude.{◌≡◌, ◌≤◌, length};
ghost use Rattle.text.specs.Answer.{refuse_at};
ghost use Rattle.relocate.specs.Layout.{sorted_instructions};
ghost use Rattle.relocate_chains.specs.ByChains.{by_chains};
ghost use Rattle.encoder_walks.specs.Walks.{resolution_numbered, held_passed, is_number_aside, aside_next};

use asm::RowCount;
use encoder::AssembleRefusal;
use encoder_canonical::CanonicalRefusal;
use encoder_lines::CanonicalAt;
use program::BinaryInstruction;
use relocate_chains::ChainedTable;
use vm_operands::OlaOperand;

// Whether a place that may hold none holds a number: op0 or dst.
fn number_aside(instruction: BinaryInstruction) -> bool
    ensures { result ≡ is_number_aside instruction }
{
    matches!(instruction.op0, OlaOperand::ImmediateOperand { .. })
        || matches!(instruction.dst, OlaOperand::ImmediateOperand { .. })
}

// The first instruction so far that has a number in op0 or dst, where one with an index comes next.
fn aside_next(first: Option<usize>, instruction: BinaryInstruction, index: usize) -> Option<usize>
    ensures { result ≡ aside_next first instruction index }
{
    first.or(number_aside(instruction).then_some(index))
}

// Refusal 12 where an instruction has a number in op0 or dst.
#[tactic(auto, unfolding(text::specs::Answer::refuse_at))]
fn all_placed(first: Option<usize>) -> Result<(), AssembleRefusal>
    ensures { resolution_numbered result ≡ refuse_at first 12 }
{
    match first {
        Some(k) => Err(AssembleRefusal::NumberMisplaced(RowCount::new(k))),
        None => Ok(()),
    }
}

// Refusals 10 to 12 and 25 over a walk, where main's scope lies within the source.
#[tactic(auto, using(crate::proofs::WalkLaws::passed_laws))]
fn resolve_within(table: &ChainedTable, start: usize, end: usize) -> Result<(), AssembleRefusal>
    requires { (start ≤ end) × (end ≤ length table.now.source.now) }
    ensures { resolution_numbered result ≡ held_passed table.now.source.now (by_chains table.now) (sorted_instructions table.now.source.now start end) }
{
    let mut at: usize = 0;
    let mut index: usize = 0;
    let mut aside = None;
    // Each line tells where the next one starts.
    while at < table.source.len() {
        let CanonicalAt { found, next } = encoder_lines::canonical_at(table, start, end, at);
        at = next;
        match found {
            Ok(None) => {}
            Ok(Some(instruction)) => {
                aside = aside_next(aside, instruction, index);
                index += 1;
            }
            Err(CanonicalRefusal::Unknown) => {
                return Err(AssembleRefusal::NameUnknown(RowCount::new(index)));
            }
            Err(CanonicalRefusal::Misused) => {
                return Err(AssembleRefusal::MemoryOperand(RowCount::new(index)));
            }
            Err(CanonicalRefusal::Bracketed) => {
                return Err(AssembleRefusal::BracketMisplaced(RowCount::new(index)));
            }
        }
    }
    all_placed(aside)
}

// Refusals 10, 11 and 25, whichever instruction comes first, and then 12, where main's scope runs from start to end.
#[tactic(auto, using(crate::proofs::WalkLaws::passed_laws))]
pub fn resolve(table: &ChainedTable, start: usize, end: usize) -> Result<(), AssembleRefusal>
    ensures { resolution_numbered result ≡ held_passed table.now.source.now (by_chains table.now) (sorted_instructions table.now.source.now start end) }
{
    if end < start || table.source.len() < end {
        return Ok(());
    }
    resolve_within(table, start, end)
}
