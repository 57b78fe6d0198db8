// The calls that only read a core and its tables.
#![tactic(auto)]

ghost use Rattle.std.specs.Prelude.{◌≡◌, ◌≤◌, length, take};
ghost use Rattle.state_places.specs.Sizes.{most_results, most_notifications};
ghost use Rattle.state_readers.specs.Readers.{timer_of, timer, handle_of, handle, find, result_answer, heard_by, named, passed_on};
ghost use Rattle.words.specs.Tables.{results_in, notifications_in};
ghost use Rattle.state_core.specs.Reading.{central};

use bytes_bounds::Span;
use state::{Bearer, Running, StepResult, StepStatus};
use state_core::Core;
use state_refusals::Refusal;
use time::Micros;

// A result, with where in the store its value stands.
#[derive(Clone, Copy)]
pub struct Given {
    pub at: Micros,
    pub status: StepStatus,
    pub value: Span,
}

// A notification, with where in the store its value stands.
#[derive(Clone, Copy)]
pub struct Passed {
    pub at: Micros,
    pub link: u64,
    pub handle: u16,
    pub indication: bool,
    pub value: Span,
}

fn timer_of(r: Running) -> Option<Micros>
    ensures { result ≡ timer_of r }
{
    if r.active & r.dated {
        Some(r.deadline)
    } else {
        None
    }
}

// Kept: core, tables and store as three parameters, here and in the views; the exports to C and the calls by value own them apart.

// When the running step is to be ended by a timer call, if ever.
pub fn timer_us(core: Core, tables: &[u64; 1152], store: &[u8]) -> Result<Option<Micros>, Refusal>
    ensures { result ≡ timer (central core tables.now) (length store.now) }
{
    state_fit::gate_reader(core, tables, store.len())?;
    Ok(timer_of(core.running))
}

fn handle_of(b: Bearer) -> Option<u16>
    ensures { result ≡ handle_of b }
{
    if b.present { Some(b.link.handle) } else { None }
}

// The handle of the link, if there is one.
pub fn connected_handle(
    core: Core,
    tables: &[u64; 1152],
    store: &[u8],
) -> Result<Option<u16>, Refusal>
    ensures { result ≡ handle (central core tables.now) (length store.now) }
{
    state_fit::gate_reader(core, tables, store.len())?;
    Ok(handle_of(core.bearer))
}

// The first of the kept results that has the index, with its place.
fn find(tables: &[u64; 1152], count: usize, index: u32) -> Option<(usize, StepResult)>
    requires { count ≤ most_results }
    ensures { result ≡ find index 0 (take count (results_in tables.now)) }
{
    for i in 0..count {
        let x = words_result::result_at(tables, i);
        if x.index == index {
            return Some((i, x));
        }
    }
    None
}

// The kept result of an index.
pub fn result(
    core: Core,
    tables: &[u64; 1152],
    store: &[u8],
    index: u32,
) -> Result<Option<Given>, Refusal>
    ensures { result ≡ result_answer (central core tables.now) (length store.now) index }
{
    state_fit::gate_reader(core, tables, store.len())?;
    match find(tables, core.counts.results, index) {
        Some((i, x)) => Ok(Some(Given {
            at: x.at,
            status: x.status,
            value: Span {
                at: state_places::result_at(i),
                len: usize::from(x.len),
            },
        })),
        None => Ok(None),
    }
}

// What the first of an index heard; 0 where none of it is kept.
fn heard_by(tables: &[u64; 1152], count: usize, index: u32) -> u64
    requires { count ≤ most_results }
    ensures { result ≡ heard_by index (take count (results_in tables.now)) }
{
    match find(tables, count, index) {
        Some((_, x)) => x.heard,
        None => 0,
    }
}

// The notification that `heard` is one past the number of, if it is one of the count kept, which have the numbers from `first` on.
fn named(tables: &[u64; 1152], count: usize, first: u64, heard: u64) -> Option<Passed>
    requires { count ≤ most_notifications }
    ensures { result ≡ named first (take count (notifications_in tables.now)) heard }
{
    if heard <= first {
        return None;
    }
    let i = (heard - 1 - first) as usize;
    if count <= i {
        return None;
    }
    let x = words_notification::notification_at(tables, i);
    Some(Passed {
        at: x.at,
        link: x.link,
        handle: x.handle,
        indication: x.indication,
        value: Span {
            at: state_places::notification_at(i),
            len: usize::from(x.len),
        },
    })
}

// The notification that the kept result of an index names: an aged wait's, which passed on it.
pub fn passed_on(
    core: Core,
    tables: &[u64; 1152],
    store: &[u8],
    index: u32,
) -> Result<Option<Passed>, Refusal>
    ensures { result ≡ passed_on (central core tables.now) (length store.now) index }
{
    state_fit::gate_reader(core, tables, store.len())?;
    let counts = core.counts;
    let heard = heard_by(tables, counts.results, index);
    let first = core.counters.notified - counts.notifications as u64;
    Ok(named(tables, counts.notifications, first, heard))
}
