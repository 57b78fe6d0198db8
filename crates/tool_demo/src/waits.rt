// What became of waits: the results of a call, what an aged wait passed on, what no wait has used up.
use bytes_bounds::Span;
use central::State;
use notifications::Age;
use state::Step;
use state_readers::Passed;
use state_refusals::Refusal;
use time::{Micros, Millis};

// So many steps have ended.
fn ended(s: State) -> u32 {
    if s.core.running.active {
        return s.core.running.index;
    }
    s.core.counters.next_index
}

// How many notifications no wait has used up.
fn unused(s: State) -> u64 {
    let counters = s.core.counters;
    counters.notified.wrapping_sub(counters.wait_from)
}

// ---- a notification

fn bay(value: &[u8]) {
    match value {
        [0] => tool_say::text(b" (free)"),
        [1] => tool_say::text(b" (taken)"),
        _ => (),
    }
}

fn notification(at: Micros, link: u64, value: &[u8]) {
    tool_say::text(b"the notification of ");
    tool_tells::moment(at);
    tool_say::told(b", link ", link, b", value");
    tool_say::bytes(value);
    bay(value);
}

// The newest that is kept.
fn newest(s: State) -> Option<Passed> {
    let core = s.core;
    let counts = core.counts;
    let tables = s.tables;
    let count = counts.notifications;
    if count == 0 {
        return None;
    }
    let i = count - 1;
    if state_places::MAX_NOTIFICATIONS <= i {
        return None;
    }
    let x = words_notification::notification_at(&tables, i);
    Some(Passed {
        at: x.at,
        link: x.link,
        handle: x.handle,
        indication: x.indication,
        value: Span {
            at: state_places::notification_at(i),
            len: usize::from(x.len),
        },
    })
}

// ---- results

fn tell_passed(p: Result<Option<Passed>, Refusal>, store: &[u8]) {
    match p {
        Err(why) => tool_tells::codes::refused(Some(why)),
        Ok(None) => (),
        Ok(Some(p)) => {
            tool_say::text(b"        its result names what it passed on: ");
            notification(p.at, p.link, tool_tells::value_at(store, p.value));
            tool_say::line(b"");
        }
    }
}

fn result(s: State, store: &[u8], index: u32) {
    let core = s.core;
    let tables = s.tables;
    tool_tells::result(index, central::result(s, store, index), store);
    tell_passed(state_readers::passed_on(core, &tables, store, index), store);
}

fn results(s: State, store: &[u8], from: u32, to: u32) {
    for index in from..to {
        result(s, store, index);
    }
}

// ---- what an old notification does

fn links(s: State) -> u64 {
    s.core.counters.links
}

fn tell_age(at: Micros, now: Micros) {
    tool_say::clock::span(now.0.wrapping_sub(at.0));
    tool_say::text(b" old");
}

// It was heard before this call.
fn old(s: State, store: &[u8], now: Micros) {
    if let Some(p) = newest(s) {
        if now.0 <= p.at.0 {
            return;
        }
        tool_say::text(b"        it passed on ");
        notification(p.at, p.link, tool_tells::value_at(store, p.value));
        tool_say::text(b", which is ");
        tell_age(p.at, now);
        tool_say::told(b"; the present link is ", links(s), b"\n");
    }
}

// A wait that passed in this call, on what was heard before it.
fn tell_old(before: State, s: State, store: &[u8], now: Micros) {
    if before.core.counters.wait_from < s.core.counters.wait_from {
        old(s, store, now);
    }
}

fn why_not(s: State, link: u64, at: Micros, now: Micros, age: Millis) {
    if link != links(s) {
        tool_say::told(b": the present link is ", links(s), b"\n");
        return;
    }
    tool_say::text(b": it is ");
    tell_age(at, now);
    tool_tells::steps::millis(b", and the age is ", age);
    tool_say::line(b"");
}

fn uncounted(s: State, store: &[u8], now: Micros, age: Millis) {
    if let Some(p) = newest(s) {
        tool_say::told(
            b"    step ",
            s.core.running.index as u64,
            b" does not count ",
        );
        notification(p.at, p.link, tool_tells::value_at(store, p.value));
        why_not(s, p.link, p.at, now, age);
    }
}

fn tell_aged(s: State, store: &[u8], now: Micros, age: Age) {
    match age {
        Age::Any => (),
        Age::Within(ms) => uncounted(s, store, now, ms),
    }
}

// An aged wait that began in this call and did not pass on what no wait has used up.
fn tell_uncounted(before: State, s: State, store: &[u8], now: Micros) {
    let running = s.core.running;
    if !running.active | (unused(s) == 0) | (running.index < before.core.counters.next_index) {
        return;
    }
    match running.step {
        Step::WaitNotification {
            characteristic: _,
            within_ms: _,
            age,
        } => tell_aged(s, store, now, age),
        _ => (),
    }
}

fn tell_unused(n: u64, before: u64) {
    if n != before {
        tool_say::told(b"    notifications that no wait has used up: ", n, b"\n");
    }
}

// What a call did to the steps and the waits.
pub fn tell(before: State, s: State, store: &[u8], now: Micros) {
    results(s, store, ended(before), ended(s));
    tell_old(before, s, store, now);
    tell_unused(unused(s), unused(before));
    tell_uncounted(before, s, store, now);
}
