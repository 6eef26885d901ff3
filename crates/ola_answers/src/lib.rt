// What the library answers as C structs, all but opening and next, which ola_steps has: refusal 0 means accepted, and on refusal every other number but the
// detail is 0, but that a meter is the one that was given. Nothing but conversions.
#![tactic(auto)]

ghost use Rattle.std.specs.Prelude.{◌≡◌};
ghost use Rattle.text.specs.Answer.{ok, refused};
ghost use Rattle.asm.specs.Parts.{name_part};
ghost use Rattle.relocate.specs.Room.{room_numbered};
ghost use Rattle.encoder.specs.Assemble.{numbered};
ghost use Rattle.program_bytecode.specs.Written.{written_numbered};
ghost use Rattle.program_encode.specs.Encoding.{encoding_numbered};
ghost use Rattle.program_listing.specs.Row.{row_numbered};
ghost use Rattle.source.specs.SourceText.{source_numbered};
ghost use Rattle.ola_answers.specs.Answers.{assembly_of, metered_of, figures_out, written_of, encoding_of, name_of};

use encoder::{AssembleRefusal, Totals};
use meter::{Meter, Metered};
use program::{EncodeRefusal, InstructionWords, RowRefusal, WriteRefusal};
use relocate::{RelocateRefusal, RoomFigures};
use source::SourceRefusal;

#[repr(C)]
#[derive(Clone, Copy, Default)]
pub struct OlaAssembly {
    pub refusal: u64,
    pub detail: u64,
    pub labels: u64,
    pub words: u64,
    pub hosts: u64,
    pub kept: u64,
}

#[repr(C)]
#[derive(Clone, Copy)]
pub struct OlaMetered {
    pub assembly: OlaAssembly,
    pub meter: Meter,
}

#[repr(C)]
#[derive(Clone, Copy, Default)]
pub struct OlaRoom {
    pub refusal: u64,
    pub detail: u64,
    pub labels: u64,
    pub instructions: u64,
    pub counted: u64,
    pub words: u64,
}

#[repr(C)]
#[derive(Clone, Copy)]
pub struct OlaWritten {
    pub refusal: u64,
    pub detail: u64,
    pub written: u64,
}

#[repr(C)]
#[derive(Clone, Copy, Default)]
pub struct OlaEncoding {
    pub refusal: u64,
    pub detail: u64,
    pub count: u64,
    pub first: u64,
    pub second: u64,
}

#[repr(C)]
#[derive(Clone, Copy, Default)]
pub struct OlaName {
    pub start: usize,
    pub length: usize,
}

// What assembling answered.
pub fn assembly_out(answer: Result<Totals, AssembleRefusal>) -> OlaAssembly
    ensures { result ≡ assembly_of (numbered answer) }
{
    match answer {
        Ok(totals) => OlaAssembly {
            labels: totals.labels as u64,
            words: totals.words as u64,
            hosts: totals.hosts as u64,
            kept: totals.kept as u64,
            ..OlaAssembly::default()
        },
        Err(refusal) => OlaAssembly {
            refusal: encoder_refusals::refusal_number(refusal),
            detail: encoder_refusals::refusal_detail(refusal),
            ..OlaAssembly::default()
        },
    }
}

// What a build on a meter answered; the meter as it is, on refusal too.
pub fn metered_out(answer: Metered) -> OlaMetered
    ensures { result ≡ metered_of (numbered answer.assembly) answer.meter }
{
    OlaMetered {
        assembly: assembly_out(answer.assembly),
        meter: answer.meter,
    }
}

// What a source takes.
pub fn room_out(answer: Result<RoomFigures, RelocateRefusal>) -> OlaRoom
    ensures { result ≡ figures_out (room_numbered answer) }
{
    match answer {
        Ok(figures) => OlaRoom {
            labels: figures.labels as u64,
            instructions: figures.instructions as u64,
            counted: figures.counted as u64,
            words: figures.words as u64,
            ..OlaRoom::default()
        },
        Err(inner) => {
            let refusal = AssembleRefusal::Relocate(inner);
            OlaRoom {
                refusal: encoder_refusals::refusal_number(refusal),
                detail: encoder_refusals::refusal_detail(refusal),
                ..OlaRoom::default()
            }
        }
    }
}

// So many bytes were written.
fn accepted_text(n: usize) -> OlaWritten
    ensures { result ≡ written_of (ok n) }
{
    OlaWritten {
        refusal: 0,
        detail: 0,
        written: n as u64,
    }
}

// None were.
fn refused_text(refusal: u64, detail: u64) -> OlaWritten
    ensures { result ≡ written_of (refused refusal detail) }
{
    OlaWritten {
        refusal,
        detail,
        written: 0,
    }
}

// What writing bytecode answered.
pub fn written_out(answer: Result<usize, WriteRefusal>) -> OlaWritten
    ensures { result ≡ written_of (written_numbered answer) }
{
    match answer {
        Ok(n) => accepted_text(n),
        Err(WriteRefusal::TextTooShort) => refused_text(23, 0),
    }
}

// What writing a listing row answered.
pub fn row_out(answer: Result<usize, RowRefusal>) -> OlaWritten
    ensures { result ≡ written_of (row_numbered answer) }
{
    match answer {
        Ok(n) => accepted_text(n),
        Err(RowRefusal::NumberTooLarge) => refused_text(21, 0),
        Err(RowRefusal::PlaceEmpty) => refused_text(24, 0),
        Err(RowRefusal::TextTooShort) => refused_text(23, 0),
    }
}

// What writing source answered.
pub fn source_out(answer: Result<usize, SourceRefusal>) -> OlaWritten
    ensures { result ≡ written_of (source_numbered answer) }
{
    match answer {
        Ok(n) => accepted_text(n),
        Err(SourceRefusal::Open(inner)) => refused_text(
            ola_steps::open_number(inner),
            ola_steps::open_detail(inner),
        ),
        Err(SourceRefusal::OffRow(index)) => refused_text(26, index as u64),
        Err(SourceRefusal::TextTooShort) => refused_text(23, 0),
    }
}

// What encoding one instruction answered.
pub fn encoding_out(answer: Result<InstructionWords, EncodeRefusal>) -> OlaEncoding
    ensures { result ≡ encoding_of (encoding_numbered answer) }
{
    match answer {
        Ok(words) => OlaEncoding {
            count: if words.second.is_some() { 2 } else { 1 },
            first: words.first,
            second: words.second.unwrap_or(0),
            ..OlaEncoding::default()
        },
        Err(EncodeRefusal::NumberTooLarge) => OlaEncoding {
            refusal: 21,
            ..OlaEncoding::default()
        },
        Err(EncodeRefusal::Rejected(place)) => OlaEncoding {
            refusal: 22,
            detail: place.index() as u64,
            ..OlaEncoding::default()
        },
    }
}

// The part of a source that a name at a place is, none where the source does not reach so far.
pub fn name_out(source: &[u8], start: usize, length: usize) -> OlaName
    ensures { result ≡ name_of (name_part source.now start length) }
{
    match source.get(start..) {
        Some(rest) if length <= rest.len() => OlaName { start, length },
        _ => OlaName::default(),
    }
}
