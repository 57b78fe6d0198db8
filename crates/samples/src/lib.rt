// 01's sample table, in specs/Table.antt: rows about the definitions that the other crates' contracts equal their code to.
#![tactic(auto)]
