// Runs of the dispatcher: theorems alone, in specs/ and proofs/.
#![tactic(auto)]
