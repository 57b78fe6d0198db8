// The wait check: what a WaitNotification looks at, when it starts and at each notification.
#![tactic(auto)]

ghost use Rattle.std.specs.Prelude.{◌≡◌, List, ℕ, length};
ghost use Rattle.state_places.specs.Sizes.{store_size};
ghost use Rattle.script_rules.specs.Wait.{Looks, wanted, wait_passes, passed_on, passed, check_one, awaited, check_wait};
ghost use Rattle.state_core.specs.Reading.{central, held};

use gatt_characteristics::Characteristic;
use notifications::{Age, Wanted};
use script_rules::Awaited;
use state::{Counters, Step, StepStatus};
use state_core::Core;
use time::Micros;

// All that was notified so far is behind the wait that passed.
fn pass(k: Counters) -> Counters
    ensures { result ≡ passed k }
{
    Counters {
        wait_from: k.notified,
        ..k
    }
}

// What a wait on a handle goes by.
fn wanted(c: Core, at: Micros, handle: u16, age: Age) -> Wanted
    ensures { (w : List ℕ) → result ≡ wanted (central c w) at handle age }
{
    Wanted {
        handle,
        age,
        link: if c.bearer.present {
            Some(c.counters.links)
        } else {
            None
        },
        now: at,
    }
}

// Whether the running wait passes on what was heard.
fn wait_passes(c: Core, tables: &[u64; 1152], store: &[u8], w: Wanted) -> bool
    requires { (length store.now ≡ store_size) × Looks (central c tables.now) }
    ensures { result ≡ wait_passes (held c tables.now store.now) w }
{
    let counters = c.counters;
    let running = c.running;
    let counts = c.counts;
    let kept = counts.notifications;
    let skip = notifications::skipped(counters.notified, kept, counters.wait_from);
    let len = usize::from(running.len);
    words_notification::wait_passes(tables, kept, skip, w, store, state_places::RUNNING_AT, len)
}

// What a wait that passes tells: an aged one, one past the number of the newest notification that counts.
fn passed_on(c: Core, tables: &[u64; 1152], w: Wanted) -> u64
    requires { Looks (central c tables.now) }
    ensures { result ≡ passed_on (central c tables.now) w w.age }
{
    let counters = c.counters;
    let counts = c.counts;
    let age = w.age;
    match age {
        Age::Any => 0,
        Age::Within(_) => {
            let kept = counts.notifications;
            let skip = notifications::skipped(counters.notified, kept, counters.wait_from);
            let first = counters.notified - kept as u64;
            words_notification::newest_counted(tables, kept, skip, first, w)
        }
    }
}

// By the characteristic that the step names.
fn check_one(
    c: Core,
    tables: &mut [u64; 1152],
    store: &mut [u8],
    at: Micros,
    age: Age,
    x: Option<Characteristic>,
) -> Core
    requires { (length store.old ≡ store_size) × Looks (central c tables.old) }
    ensures { held result tables.new store.new ≡ check_one (held c tables.old store.old) at age x }
{
    match x {
        None => script_turns::end(c, tables, store, at, StepStatus::NotFound),
        Some(known) => {
            let w = wanted(c, at, known.value_handle, age);
            if wait_passes(c, tables, store, w) {
                let heard = passed_on(c, tables, w);
                let counters = c.counters;
                let mut o = c;
                o.counters = pass(counters);
                return script_turns::finish(
                    o,
                    tables,
                    store,
                    at,
                    StepStatus::Ok,
                    state_places::HELD_AT,
                    0,
                    heard,
                );
            }
            c
        }
    }
}

// The characteristic that a step waits on, and with which age.
fn awaited_by(step: Step) -> Option<Awaited>
    ensures { result ≡ awaited step }
{
    match step {
        Step::WaitNotification {
            characteristic,
            age,
            ..
        } => Some(Awaited {
            characteristic,
            age,
        }),
        _ => None,
    }
}

// A running WaitNotification looks at what was heard.
pub fn check_wait(c: Core, tables: &mut [u64; 1152], store: &mut [u8], at: Micros) -> Core
    requires { (length store.old ≡ store_size) × Looks (central c tables.old) }
    ensures { held result tables.new store.new ≡ check_wait (held c tables.old store.old) at }
{
    let running = c.running;
    let step = running.step;
    if running.active {
        match awaited_by(step) {
            None => c,
            Some(
                Awaited {
                    characteristic,
                    age,
                },
            ) => {
                let counts = c.counts;
                let x = words_characteristic::find_characteristic(
                    tables,
                    counts.characteristics,
                    characteristic,
                );
                check_one(c, tables, store, at, age, x)
            }
        }
    } else {
        c
    }
}
