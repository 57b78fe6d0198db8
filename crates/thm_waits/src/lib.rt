// What waits go by, over every sequence of calls, from the calls alone: theorems, no code.
#![tactic(auto)]
