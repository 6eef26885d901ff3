// The survey of a text: one walk over its lines that reads every row and adds up what later steps need. No row is stored.
#![tactic(auto)]

ghost use Rattle.std.specs.Prelude.{◌≡◌, [], ◌∷◌};
ghost use Rattle.text.specs.Bytes.{bytes, same};
ghost use Rattle.asm.specs.Parts.{name_at};
ghost use Rattle.asm.specs.Survey.{tally_of, joined, survey_of, survey_numbered};
ghost use Rattle.asm.specs.declared.AsmRow.TheVariants.{Instruction, LabelJmp};
ghost use Rattle.asm_survey.specs.Small.{Small, call_tally};

use asm::{AsmRow, LineRead, OlaAsmInstruction, RowAt, RowCount, Tally};

// Whether the part of a text that starts at a place and has a length is `main`, the name of the scope that goes first.
#[tactic(auto, using(crate::proofs::Laws::main_laws))]
pub fn is_main(source: &[u8], start: usize, length: usize) -> bool
    ensures { result ≡ same (name_at source.now start length) (bytes "main") }
{
    let Some(rest) = source.get(start..) else {
        return false;
    };
    length == 4 && rest.starts_with(b"main")
}

// The sums with an instruction row more.
fn with_instruction(found: Tally, instruction: OlaAsmInstruction) -> Tally
    requires { Small found 9223372036854775807 }
    ensures { result ≡ joined found (tally_of [] (Instruction instruction ∷ [])) }
{
    Tally {
        rows: found.rows + 1,
        instructions: found.instructions + 1,
        counted: found.counted + asm_lengths::binary_length(instruction),
        words: found.words + asm_lengths::word_count(instruction),
        ..found
    }
}

// The sums with a label row more that is no call label.
fn with_label(found: Tally) -> Tally
    requires { Small found 9223372036854775807 }
    ensures { result ≡ joined found (tally_of [] (LabelJmp 0 0 ∷ [])) }
{
    Tally {
        rows: found.rows + 1,
        labels: found.labels + 1,
        ..found
    }
}

// The sums with a call label more, which may be `main`. It ends main's scope where that has begun and not ended.
#[tactic(auto, using(crate::proofs::Laws::more_laws))]
fn with_call(found: Tally, start: usize, is_main: bool) -> Tally
    requires { Small found 9223372036854775807 }
    ensures { result ≡ joined found (call_tally is_main start) }
{
    let called = Tally {
        rows: found.rows + 1,
        labels: found.labels + 1,
        call: found.call.or(Some(start)),
        end: found.main.and(found.end.or(Some(start))),
        ..found
    };
    if !is_main {
        return called;
    }
    Tally {
        mains: called.mains + 1,
        main: called.main.or(Some(start)),
        ..called
    }
}

// The sums with a row of the text more.
fn with_row(found: Tally, source: &[u8], row: AsmRow) -> Tally
    requires { Small found 9223372036854775807 }
    ensures { result ≡ joined found (tally_of source.now (row ∷ [])) }
{
    match row {
        AsmRow::Instruction(instruction) => with_instruction(found, instruction),
        AsmRow::LabelCall { start, length } => {
            with_call(found, start, is_main(source, start, length))
        }
        AsmRow::LabelJmp { .. } | AsmRow::LabelProphet { .. } => with_label(found),
    }
}

// The sums of a text's rows, or its first unreadable row.
#[tactic(auto, using(crate::proofs::WalkLaws::walk_laws))]
pub fn survey(source: &[u8]) -> Result<Tally, RowCount>
    ensures { survey_numbered result ≡ survey_of source.now }
{
    let mut found = Tally::default();
    let mut at = 0;
    while at < source.len() {
        let RowAt { read, next } = asm_rows::row_at(source, at);
        at = next;
        match read {
            LineRead::Blank => {}
            LineRead::Row(row) => {
                found = with_row(found, source, row);
            }
            LineRead::Unreadable => {
                return Err(RowCount::new(found.rows));
            }
        }
    }
    Ok(found)
}
