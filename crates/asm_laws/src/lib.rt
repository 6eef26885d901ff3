// Laws of what asm defines: lengths of rows and lines, shapes, numbers, pieces, the rows by Rust's `lines`, the survey of joined texts. No code.
#![tactic(auto)]
