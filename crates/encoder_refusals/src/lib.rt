// The number and the detail of what assembling refuses.
#![tactic(auto)]

ghost use Rattle.std.specs.Prelude.{◌≡◌};
ghost use Rattle.relocate.specs.Relocate.{relocate_number, relocate_detail};
ghost use Rattle.encoder.specs.Assemble.{assemble_number, assemble_detail};

use encoder::AssembleRefusal;
use relocate::RelocateRefusal;

// The number of a refusal from 1 to 9, and its detail.
fn relocate_told(refusal: RelocateRefusal) -> (u64, u64)
    ensures number { result.0 ≡ relocate_number refusal }
    ensures detail { result.1 ≡ relocate_detail refusal }
{
    match refusal {
        RelocateRefusal::SourceTooLong => (1, 0),
        RelocateRefusal::ByteAbove127(offset) => (2, offset as u64),
        RelocateRefusal::UnreadableRow(rows) => (3, rows.0 as u64),
        RelocateRefusal::NoRow => (4, 0),
        RelocateRefusal::NoMain => (5, 0),
        RelocateRefusal::TwoMains => (6, 0),
        RelocateRefusal::TableTooShort => (7, 0),
        RelocateRefusal::ProphetListMalformed => (8, 0),
        RelocateRefusal::ProphetUnknown(index) => (9, index as u64),
    }
}

// The number of a refusal, and its detail, 0 where none is named.
fn told(refusal: AssembleRefusal) -> (u64, u64)
    ensures number { result.0 ≡ assemble_number refusal }
    ensures detail { result.1 ≡ assemble_detail refusal }
{
    match refusal {
        AssembleRefusal::Relocate(inner) => relocate_told(inner),
        AssembleRefusal::NameUnknown(index) => (10, index.0 as u64),
        AssembleRefusal::MemoryOperand(index) => (11, index.0 as u64),
        AssembleRefusal::NumberMisplaced(index) => (12, index.0 as u64),
        AssembleRefusal::RoomTooShort => (13, 0),
        AssembleRefusal::BracketMisplaced(index) => (25, index.0 as u64),
    }
}

// The number of a refusal.
pub fn refusal_number(refusal: AssembleRefusal) -> u64
    ensures { result ≡ assemble_number refusal }
{
    told(refusal).0
}

// The detail of a refusal, 0 where none is named.
pub fn refusal_detail(refusal: AssembleRefusal) -> u64
    ensures { result ≡ assemble_detail refusal }
{
    told(refusal).1
}
