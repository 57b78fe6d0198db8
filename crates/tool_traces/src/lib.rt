// Traces of calls, read from standard input (docs/TRACE.md): records one by one, and the batch that a record holds.
#![tactic(auto)]

pub mod record;
pub mod steps;
