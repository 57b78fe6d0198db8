// All calls together, and the worlds that each passes through: definitions and theorems, no code.
#![tactic(auto)]
