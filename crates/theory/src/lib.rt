// The theory of relative schedules: relations on constraint graphs, and theorems that tie the executable definitions to them. No code.
#![tactic(auto)]
