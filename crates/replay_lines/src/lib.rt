// What a line of cases says, what the port answers for it written the same way, and the cases of bytecode and of single instructions. The program
// replay reads the lines, and has the cases of assembling.
#![tactic(auto)]

pub mod answers;
pub mod fields;
pub mod programs;
pub mod reading;
