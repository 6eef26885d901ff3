// The walk over the sorted rows, line by line: main's stretch of the source, then what stands before it, then what stands after it. No
// crate sorts again.
#![tactic(auto)]

ghost use Rattle.std.specs.Prelude.{◌≡◌};
ghost use Rattle.relocate.specs.Layout.{sorted_row_at};
ghost use Rattle.relocate_walk.specs.Stretch.{stretch_at};

use asm::RowAt;

// The stretch that a place of the sorted source lies in: where it stops in the source, the place there, and what to add to and take from a place
// of the source to have one of the sorted source.
#[derive(Clone, Copy)]
pub struct Stretch {
    stop: usize,
    place: usize,
    add: usize,
    take: usize,
}

// The stretch of a place of a sorted source that has a length.
#[tactic(auto, using(text::proofs::Laws::tests), unfolding(crate::specs::Stretch::stretch_at))]
fn stretch_at(length: usize, start: usize, end: usize, at: usize) -> Stretch
    ensures { result ≡ stretch_at length start end at }
{
    let whole = Stretch {
        stop: length,
        place: at,
        add: 0,
        take: 0,
    };
    if end < start || length < end {
        return whole;
    }
    let main = end - start;
    if at < main {
        return Stretch {
            stop: end,
            place: start + at,
            take: start,
            ..whole
        };
    }
    if at < end {
        return Stretch {
            stop: start,
            place: at - main,
            add: main,
            ..whole
        };
    }
    whole
}

// The line at a place of the sorted source, where main's scope runs from start to end, read as a row, and the place of the line after it.
#[tactic(auto, using(crate::proofs::Laws::walk_laws))]
pub fn sorted_row(source: &[u8], start: usize, end: usize, at: usize) -> RowAt
    ensures { result ≡ sorted_row_at source.now start end at }
{
    let stretch = stretch_at(source.len(), start, end, at);
    let row = asm_rows::row_at(&source[..stretch.stop], stretch.place);
    RowAt {
        next: row.next + stretch.add - stretch.take,
        ..row
    }
}
