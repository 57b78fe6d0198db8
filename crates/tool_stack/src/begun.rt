// What the calls begin with.
use script_rules::Batch;
use state::Step;
use state_core::Core;
use time::Micros;
use tool_bench::row::{Listening, Row, Talking};
use tool_bench::{begin, play, row};

// How many bytes each wait looks for.
const SOUGHT: usize = 4;

// A Connect, with half of each table.
pub fn connecting() -> Row {
    Listening::Unlisted.row(true)
}

// A step runs on a link until 1 ms, and 64 waits are behind it. They look at all that is kept.
fn before_waits(step: Step) -> Core {
    let mut c = begin::core(Row {
        step,
        len: 0,
        deadline: Micros(1000),
        ..Talking::Ends.row()
    });
    c.counters.wait_from = 0;
    c
}

// Nothing runs, and there is a link where the batch's waits are checked.
pub fn pushed(checks: bool) -> Core {
    if checks {
        let mut c = before_waits(row::WAIT);
        c.running.active = false;
        c.counts.waiting = 0;
        return c;
    }
    begin::idle()
}

// 64 waits for a notification, or 64 steps that end at once.
pub fn batch(checks: bool) -> Batch {
    if checks {
        return play::batch_of(row::WAITS, SOUGHT);
    }
    play::batch(true)
}

// A Wait is due.
pub fn timed(checks: bool) -> Core {
    if checks {
        return before_waits(row::WAIT);
    }
    begin::core(row::timed())
}

// A Connect runs.
pub fn connected(checks: bool) -> Core {
    if checks {
        let mut c = before_waits(row::CONNECTS);
        c.bearer.present = false;
        return c;
    }
    begin::core(connecting())
}
