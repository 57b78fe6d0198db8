// What the script does (definitions and their laws): how a step begins, runs and ends, what waits, what each event does.
#![tactic(auto)]

use notifications::Age;
use state::Step;
use time::Millis;
use uuid_value::Uuid;

// A step with its value's place in the lent bytes.
#[derive(Clone, Copy)]
pub struct Placed {
    pub step: Step,
    pub place: usize,
    pub len: usize,
}

// The first count are the batch.
// Kept: an array with a count, since a batch goes by value and there is no heap.
#[derive(Clone, Copy)]
pub struct Batch {
    pub steps: [Placed; 64],
    pub count: usize,
}

// What a step does without a link: it runs for its milliseconds, is done, or needs one.
#[derive(Clone, Copy)]
pub enum Alone {
    Runs(Millis),
    Done,
    NeedsLink,
}

// What a wait waits on, and how old a notification may be that it counts.
#[derive(Clone, Copy)]
pub struct Awaited {
    pub characteristic: Uuid,
    pub age: Age,
}
