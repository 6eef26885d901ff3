// Source from bytecode, document 02's Point 7: why it is not written, and what writing it answers.
#![tactic(auto)]

use decoder::OpenRefusal;

// Why a bytecode's source is not written.
#[derive(Clone, Copy)]
pub enum SourceRefusal {
    // 14 to 19.
    Open(OpenRefusal),
    // 26: contents in a place that the operation's row does not have, with the instruction's index.
    OffRow(usize),
    // 23: the lent text is too short.
    TextTooShort,
}
