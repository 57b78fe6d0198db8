// A Connect goes on listed alone.
#![tactic(auto)]
