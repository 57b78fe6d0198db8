// What the readers say, over every sequence of calls: theorems, no code.
#![tactic(auto)]
