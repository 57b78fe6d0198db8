// Steps and results are accounted for, over every sequence of calls: theorems, no code.
#![tactic(auto)]
