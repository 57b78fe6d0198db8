// Laws of proofs alone: one for each shape of a function over a struct that is lent by `&mut`.
#![tactic(auto)]
