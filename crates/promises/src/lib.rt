// The demands as theorems (proofs/Promises.antt) and document 01's cases as one table (specs/Starred.antt). No code.
#![tactic(auto)]
