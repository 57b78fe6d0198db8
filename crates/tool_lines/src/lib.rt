// The lines of a trace player (docs/TRACE.md, 'Lines'), word by word.
#![tactic(auto)]

pub mod line;
