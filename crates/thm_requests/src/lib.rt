// Requests and what they wait for, over every sequence of calls: theorems, no code.
#![tactic(auto)]
