// The whole state in words (docs/TRACE.md, 'Lines'), each part with its word before it: the core goes by value, the tables are lent.
#![tactic(auto)]

ghost use Rattle.std.specs.Prelude.{ℕ, ◌<◌};

use state::{Bearer, Counters};
use state_core::Core;
use tool_lines::line::Line;
use tool_rows::Advertiser;
use words_report::Report;

fn tell_counters(line: &mut Line, k: Counters) {
    line.named(b"next", k.next_index);
    line.named(b"refused_steps", k.refused_steps);
    line.named(b"notified", k.notified);
    line.named(b"wait_from", k.wait_from);
}

fn tell_bearer(line: &mut Line, b: Bearer, store: &[u8]) {
    line.word(b"link");
    tool_rows::bearer(line, b, store);
}

// ---- the tables

// How many places are in use, and each of them; none beyond the last place.
fn each<F: Fn(&mut Line, usize)>(line: &mut Line, count: usize, places: usize, tell: F)
    requires { (l : _) (i : ℕ) → i < places → F.pre tell l i }
{
    line.number(count as u64);
    for i in 0..count.min(places) {
        tell(line, i);
    }
}

fn tell_keys(line: &mut Line, tables: &[u64; 1152], count: usize) {
    each(
        line,
        count,
        state_places::MAX_KEYS,
        |line, i| line.key(tables[words::KEY + i]),
    );
}

fn tell_queue(line: &mut Line, tables: &[u64; 1152], count: usize, store: &[u8]) {
    line.word(b"waiting");
    each(line, count, state_places::MAX_STEPS, |line, i| {
        let x = words_step::queued_at(tables, i);
        tool_rows::queued(line, x, store, state_places::waiting_at(i));
    });
}

fn tell_results(line: &mut Line, tables: &[u64; 1152], count: usize, store: &[u8]) {
    line.word(b"results");
    each(line, count, state_places::MAX_RESULTS, |line, i| {
        let x = words_result::result_at(tables, i);
        tool_rows::kept(line, x, store, state_places::result_at(i));
    });
}

fn advertiser(x: Report) -> Advertiser {
    Advertiser {
        key: x.who,
        at: x.at.0,
        channel: x.channel,
        pdu: x.pdu,
        len: x.len,
        response: (x.response != words_report::NO_RESPONSE).then_some(x.response),
    }
}

fn tell_reports(line: &mut Line, tables: &[u64; 1152], count: usize, store: &[u8]) {
    line.word(b"reports");
    each(line, count, state_places::MAX_REPORTS, |line, i| {
        let x = advertiser(words_report::report_at(tables, i));
        tool_rows::report(
            line,
            x,
            store,
            state_places::report_at(i),
            state_places::response_at(i),
        );
    });
}

fn tell_services(line: &mut Line, tables: &[u64; 1152], count: usize) {
    line.word(b"services");
    each(line, count, state_places::MAX_SERVICES, |line, i| {
        tool_rows::service(line, words_service::service_at(tables, i));
    });
}

fn tell_characteristics(line: &mut Line, tables: &[u64; 1152], count: usize) {
    let most = state_places::MAX_CHARACTERISTICS;
    let kept = words_characteristic::characteristics_of(tables, count.min(most)).kept;
    line.word(b"characteristics");
    each(
        line,
        count,
        most,
        |line, i| tool_rows::characteristic(line, kept[i]),
    );
}

fn tell_notifications(line: &mut Line, tables: &[u64; 1152], count: usize, store: &[u8]) {
    line.word(b"notifications");
    each(line, count, state_places::MAX_NOTIFICATIONS, |line, i| {
        let x = words_notification::notification_at(tables, i);
        tool_rows::notification(line, x, store, state_places::notification_at(i));
    });
}

// The link of each notification.
fn tell_links_heard(line: &mut Line, tables: &[u64; 1152], count: usize) {
    each(line, count, state_places::MAX_NOTIFICATIONS, |line, i| {
        line.number(words_notification::notification_at(tables, i).link);
    });
}

// What each result names.
fn tell_named(line: &mut Line, tables: &[u64; 1152], count: usize) {
    each(line, count, state_places::MAX_RESULTS, |line, i| {
        line.number(words_result::result_at(tables, i).heard);
    });
}

// ---- the parts

fn tell_running(line: &mut Line, core: Core, tables: &[u64; 1152], store: &[u8]) {
    line.word(b"running");
    if !core.running.active {
        line.word(b"none");
        return;
    }
    tool_rows::running(line, core.running, store);
    tell_keys(line, tables, core.key_count);
}

pub fn tell_state(line: &mut Line, core: Core, tables: &[u64; 1152], store: &[u8]) {
    let counts = core.counts;
    tell_counters(line, core.counters);
    tell_bearer(line, core.bearer, store);
    tell_running(line, core, tables, store);
    tell_queue(line, tables, counts.waiting, store);
    tell_results(line, tables, counts.results, store);
    tell_reports(line, tables, core.reports, store);
    tell_services(line, tables, counts.services);
    tell_characteristics(line, tables, counts.characteristics);
    tell_notifications(line, tables, counts.notifications, store);
}

// The count of links, and what is kept of them.
pub fn tell_links(line: &mut Line, core: Core, tables: &[u64; 1152]) {
    line.number(core.counters.links);
    tell_links_heard(line, tables, core.counts.notifications);
    tell_named(line, tables, core.counts.results);
}
