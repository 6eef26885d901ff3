// Compares what the port answers with recorded answers of the Rust, and with answers written by hand from documents 01 and 02.
// Each argument names a file of cases, one a line; tests/oracle/record/main.rs says at its top what the fields are. In a field of text \*N; and a
// byte stand for N of that byte. A line that begins with # is a comment. Prints for each file its name, each line that differs, how many cases it
// has and how many differ, how many are accepted, and how many cases of each refusal agree. A line that cannot be read differs.
// The port's answer is written as the line says its own, but for escapes, and the two are compared byte by byte. One that does not fit differs.
#![tactic(auto)]

mod assembling;

use replay_lines::fields::{count_of, field, fields_from, unescape};
use replay_lines::reading;
use std::io;
use std::io::{Read, Write};

// How many cases a file has, how many of them differ, and how many agree of each refusal, at 0 those that are accepted.
#[derive(Clone, Copy)]
struct Tally {
    cases: u64,
    differ: u64,
    agree: [u64; 26],
}

// The function that a line asks.
#[derive(Clone, Copy)]
enum Function {
    Assemble,
    Open,
    Next,
    Encode,
    Row,
    Write,
}

impl Function {
    // The function of a name.
    fn named(name: &[u8]) -> Option<Function> {
        match name {
            b"assemble" => Some(Function::Assemble),
            b"open" => Some(Function::Open),
            b"next" => Some(Function::Next),
            b"encode" => Some(Function::Encode),
            b"row" => Some(Function::Row),
            b"write" => Some(Function::Write),
            _ => None,
        }
    }

    // The first field of its answer: the one behind what the function is given.
    fn answer_place(self) -> usize {
        match self {
            Function::Assemble => 6,
            Function::Open | Function::Encode => 2,
            Function::Next | Function::Row | Function::Write => 3,
        }
    }

    // Writes what the port's function answers for a line whose first field of text is given, and answers the refusal.
    fn write_answer(self, out: &mut impl Write, line: &[u8], given: &[u8]) -> io::Result<u64> {
        let room = count_of(field(line, 2)).unwrap_or(0);
        match self {
            Function::Assemble => assembling::write_assemble(out, line, given),
            Function::Open => reading::write_open(out, line, given),
            Function::Next => reading::write_next(out, line, given),
            Function::Encode => reading::write_encode(out, given),
            Function::Row => reading::write_row(out, given, room),
            Function::Write => reading::write_write(out, given, room),
        }
    }
}

impl Tally {
    // No case.
    fn new() -> Tally {
        Tally {
            cases: 0,
            differ: 0,
            agree: [0; 26],
        }
    }

    // Counts a case that agrees with the port's refusal, or none, which differs.
    fn count(&mut self, agreed: Option<u64>) {
        self.cases = self.cases.saturating_add(1);
        match agreed {
            Some(refusal) => {
                if let Some(count) = self.agree.get_mut(refusal as usize) {
                    *count = count.saturating_add(1);
                }
            }
            None => self.differ = self.differ.saturating_add(1),
        }
    }

    // Prints the counts.
    fn print(&self, rt: &impl Print) -> io::Result<()> {
        let Tally {
            cases,
            differ,
            agree,
        } = *self;
        print!(rt; "{cases} cases, {differ} differ\naccepted: {}", agree[0])?;
        for (refusal, count) in agree.iter().enumerate().skip(1) {
            if *count != 0 {
                print!(rt; "\nrefusal {refusal}: {count}")?;
            }
        }
        rt.write_all(b"\n")
    }
}

// Whether an answer is what fields of text say.
fn is_said(answer: &[u8], said: &[u8]) -> bool {
    let mut text = [0u8; 4096];
    unescape(said, &mut text).is_some_and(|bytes| bytes == answer)
}

// The port's refusal, 0 where it accepts, if it answers as a line says; none where the two differ.
fn run_case(line: &[u8]) -> Option<u64> {
    let function = Function::named(field(line, 0))?;
    let mut space = [0u8; 524300];
    let given = unescape(field(line, 1), &mut space)?;
    let mut answer = [0u8; 4096];
    let mut rest = answer.as_mut_slice();
    let refusal = function.write_answer(&mut rest, line, given).ok()?;
    let n = 4096usize.checked_sub(rest.len())?;
    let said = fields_from(line, function.answer_place());
    is_said(&answer[..n], said).then_some(refusal)
}

// Runs a line's case, unless it is a comment, and counts it.
fn run_line(rt: &impl Print, line: &[u8], number: u64, tally: &mut Tally) -> io::Result<()> {
    if line.starts_with(b"#") {
        return Ok(());
    }
    let agreed = run_case(line);
    tally.count(agreed);
    match agreed {
        Some(_) => Ok(()),
        None => println!(rt; "line {number} differs"),
    }
}

// Runs the cases of a file and counts them.
fn run_lines(rt: &impl Print, file: &[u8]) -> io::Result<Tally> {
    let mut tally = Tally::new();
    let mut number: u64 = 0;
    for line in file.split_inclusive(|byte| *byte == b'\n') {
        number = number.saturating_add(1);
        run_line(
            rt,
            line.strip_suffix(b"\n").unwrap_or(line),
            number,
            &mut tally,
        )?;
    }
    Ok(tally)
}

// Runs the cases of the file that a reader gives, and prints the counts.
fn run_file(rt: &impl Print, from: &mut impl Read) -> io::Result<()> {
    let mut file = [0u8; 262144];
    let n = input::read_full(from, &mut file)?;
    let tally = run_lines(rt, &file[..n])?;
    tally.print(rt)
}

fn main(rt: HostRuntime) -> io::Result<()> {
    for i in 1..usize::MAX {
        let mut buffer = [0u8; 64];
        let Some(name) = input::argument(&rt, i, &mut buffer) else {
            return Ok(());
        };
        if let Some(mut file) = input::open_named(&rt, &mut rt.stderr(), name)? {
            run_file(&rt, &mut file)?;
        }
    }
    Ok(())
}
