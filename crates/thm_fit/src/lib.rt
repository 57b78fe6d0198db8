// Every call leaves a fit state.
#![tactic(auto)]
