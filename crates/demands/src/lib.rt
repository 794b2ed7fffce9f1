// The demands on the planner, as statements about sheets (specs/) and their proofs (proofs/). No code.
#![tactic(auto)]
