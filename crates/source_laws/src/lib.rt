// Laws of what source defines: a written source reads back, assembles, and has so many bytes. No code.
#![tactic(auto)]
