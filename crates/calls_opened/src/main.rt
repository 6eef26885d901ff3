// Opens a bytecode of one instruction and asks twice for the next: that instruction, then none left.
#![tactic(auto)]

ghost use Rattle.std.specs.Prelude.{◌≡◌};
ghost use Rattle.calls_opened.specs.Answers.{answers_form, answers_of};

use decoder::{NextRefusal, OpenRefusal};
use program::BinaryInstruction;
use std::io;

// What opening a text and two calls of next answer.
#[derive(Clone, Copy)]
pub struct Answers {
    pub opening: Result<(), OpenRefusal>,
    pub first: Result<BinaryInstruction, NextRefusal>,
    pub second: Result<BinaryInstruction, NextRefusal>,
}

// Opens a text and calls next twice: each call gets the reader that the last one returned.
fn two_calls(text: &[u8]) -> Answers
    ensures { answers_form result ≡ answers_of text.now }
{
    let opened = decoder_bytecode::open(text);
    let first = decoder_bytecode::next(opened.bytecode);
    let second = decoder_bytecode::next(first.bytecode);
    Answers {
        opening: opened.opening,
        first: first.found,
        second: second.found,
    }
}

// One line for what opening answered.
fn print_opening(rt: &impl Print, opening: Result<(), OpenRefusal>) -> io::Result<()> {
    match opening {
        Ok(()) => println!(rt; "opened"),
        Err(_) => println!(rt; "refused"),
    }
}

// One line for what a call answered.
fn print_found(rt: &impl Print, found: Result<BinaryInstruction, NextRefusal>) -> io::Result<()> {
    match found {
        Ok(_) => println!(rt; "an instruction"),
        Err(NextRefusal::Open(_)) => println!(rt; "refused"),
        Err(NextRefusal::NoneLeft) => println!(rt; "none left"),
    }
}

fn main(rt: HostRuntime) -> io::Result<()> {
    let Answers {
        opening,
        first,
        second,
    } = two_calls(b"0x4000000001000000\n10");
    print_opening(&rt, opening)?;
    print_found(&rt, first)?;
    print_found(&rt, second)
}
