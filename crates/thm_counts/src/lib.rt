// Two counters of the state are what the calls make them, over every sequence of calls: theorems, no code.
#![tactic(auto)]
