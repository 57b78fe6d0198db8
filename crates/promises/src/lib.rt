// The promises over all sequences of calls (demand 3): definitions and theorems, no code.
#![tactic(auto)]
