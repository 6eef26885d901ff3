// Refusals 1 to 7, each before anything is lent: one survey of the source tells them, how its rows are laid out, and how much it takes.
#![tactic(auto)]

ghost use Rattle.std.specs.Prelude.{◌≡◌};
ghost use Rattle.relocate.specs.Layout.{laid_out, measured, measured_numbered};
ghost use Rattle.relocate.specs.Room.{room_of, room_numbered};
ghost use Rattle.relocate_measure.specs.Weighed.{weighed};

use asm::Tally;
use relocate::{Layout, RelocateRefusal, RoomFigures};
use text::ByteClass;

// The most bytes that a source may have.
const MOST_BYTES: usize = 65536;

// Refusals 4 to 6 by the sums of a source of n bytes.
#[tactic(auto, using(crate::proofs::Laws::weigh_laws))]
fn weigh(n: usize, tally: Tally) -> Result<Layout, RelocateRefusal>
    ensures { measured_numbered result ≡ weighed n tally }
{
    if tally.rows == 0 {
        return Err(RelocateRefusal::NoRow);
    }
    if tally.mains == 0 {
        return Err(RelocateRefusal::NoMain);
    }
    if 1 < tally.mains {
        return Err(RelocateRefusal::TwoMains);
    }
    Ok(Layout {
        labels: tally.labels,
        instructions: tally.instructions,
        counted: tally.counted,
        words: tally.words,
        start: tally.main.unwrap_or(0),
        end: tally.end.unwrap_or(n),
    })
}

// Refusals 1 to 6 in order.
#[tactic(auto, using(crate::proofs::Laws::lay_laws))]
fn lay_out(source: &[u8]) -> Result<Layout, RelocateRefusal>
    ensures { measured_numbered result ≡ laid_out source.now }
{
    if MOST_BYTES < source.len() {
        return Err(RelocateRefusal::SourceTooLong);
    }
    let n = ByteClass::Ascii.scan(source);
    if n < source.len() {
        return Err(RelocateRefusal::ByteAbove127(n));
    }
    let tally = asm_survey::survey(source).map_err(RelocateRefusal::UnreadableRow)?;
    weigh(source.len(), tally)
}

// Refusals 1 to 7 in order, for a label table of so many entries.
#[tactic(auto, using(crate::proofs::Laws::not_laid))]
pub fn measure(source: &[u8], room: usize) -> Result<Layout, RelocateRefusal>
    ensures { measured_numbered result ≡ measured source.now room }
{
    let layout = lay_out(source)?;
    if room < layout.labels {
        return Err(RelocateRefusal::TableTooShort);
    }
    Ok(layout)
}

// What a source takes, without building it: refusals 1 to 6, or its label rows, instructions, counted length and words.
// Promises: room_is_built, counted_is_words, room_refused, room_suffices, room_never_short.
#[tactic(auto, using(crate::proofs::Laws::room_not))]
pub fn room_of(source: &[u8]) -> Result<RoomFigures, RelocateRefusal>
    ensures { room_numbered result ≡ room_of source.now }
{
    let layout = lay_out(source)?;
    Ok(RoomFigures {
        labels: layout.labels,
        instructions: layout.instructions,
        counted: layout.counted,
        words: layout.words,
    })
}
