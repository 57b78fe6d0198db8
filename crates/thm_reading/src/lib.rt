// What cannot matter: spare bits of the words, and entries at or beyond a table's count. Theorems, no code.
#![tactic(auto)]
