// The demands on the whole protocol, and their proofs: no code.
#![tactic(auto)]
