// Batches of steps that are all alike.
use crate::row;
use script_rules::{Batch, Placed};
use state::Step;

// The same step 64 times, each with the value of so many bytes that the lent values begin with.
pub fn batch_of(step: Step, len: usize) -> Batch {
    Batch {
        steps: [Placed {
            step,
            place: 0,
            len,
        }; 64],
        count: 64,
    }
}

// 64 waits, or 64 steps that end at once.
pub fn batch(ends: bool) -> Batch {
    let step = if ends {
        Step::Capture { enabled: true }
    } else {
        row::WAIT
    };
    batch_of(step, 0)
}
