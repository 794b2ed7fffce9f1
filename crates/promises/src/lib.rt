// The demands of what the planner returns: theorems alone, in specs/ and proofs/.
#![tactic(auto)]
