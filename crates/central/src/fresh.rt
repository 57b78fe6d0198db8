// The state before the first call: all of it is zero but for the options that are chosen.
ghost use Rattle.std.specs.Prelude.{◌≡◌};
ghost use Rattle.state.specs.Fresh.{fresh_central, fresh_with};
ghost use Rattle.central.specs.State.{reading};

use crate::State;
use state::{Bearer, Counters, Counts, Link, Options, Running, Step};
use state_core::Core;
use time::{Micros, Millis};

// The old mode.
pub fn fresh() -> State
    ensures { reading result ≡ fresh_central }
{
    fresh_with(Options { strict: false })
}

pub fn fresh_with(options: Options) -> State
    ensures { reading result ≡ fresh_with options }
{
    State {
        core: Core {
            running: Running {
                deadline: Micros(0),
                step: Step::Scan { ms: Millis(0) },
                index: 0,
                cursor: 0,
                len: 0,
                phase: 0,
                active: false,
                dated: false,
            },
            bearer: Bearer {
                held: 0,
                link: Link {
                    handle: 0,
                    mtu: 0,
                    pending: 0,
                    terminating: false,
                },
                present: false,
                closed: false,
            },
            counters: Counters {
                next_index: 0,
                refused_steps: 0,
                notified: 0,
                wait_from: 0,
                links: 0,
            },
            counts: Counts {
                waiting: 0,
                results: 0,
                services: 0,
                characteristics: 0,
                notifications: 0,
            },
            reports: 0,
            key_count: 0,
            options,
        },
        tables: [0u64; 1152],
    }
}
