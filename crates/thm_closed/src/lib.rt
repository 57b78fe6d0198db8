// After an ATT timeout the bearer is finished, over every sequence of calls: theorems, no code.
#![tactic(auto)]
