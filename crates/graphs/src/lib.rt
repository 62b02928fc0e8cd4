// Graph theory for the planner: definitions in specs/, laws in proofs/, and no code.
#![tactic(auto)]
