// A state in numbers: what goes by value, and the tables, which are lent as words.
#![tactic(auto)]

use state::{Bearer, Counters, Counts, Options, Running, Sent};

// All of a state but its tables: the running step, the link, the counters, how many places of each table are in use, and what was chosen.
#[derive(Clone, Copy)]
pub struct Core {
    pub running: Running,
    pub bearer: Bearer,
    pub counters: Counters,
    pub counts: Counts,
    pub reports: usize,
    pub key_count: usize,
    pub options: Options,
}

// A call's work by value: the core as it stands, and what was sent on the way.
#[derive(Clone, Copy)]
pub struct Turn {
    pub core: Core,
    pub sent: Sent,
}
