// What a new and a lost link keep, of every state that a call accepts: theorems, no code.
#![tactic(auto)]
