// What came in, over every sequence of calls, from the calls alone: theorems, no code.
#![tactic(auto)]
