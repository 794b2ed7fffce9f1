// Laws about lists, tests and maps that are not about the planner: see proofs/.
#![tactic(auto)]
