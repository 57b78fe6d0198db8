// What is written is what is told, over every sequence of calls: definitions and theorems, no code.
#![tactic(auto)]
