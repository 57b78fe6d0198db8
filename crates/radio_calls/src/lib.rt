// Advertisements and scan responses: the core by value, the tables in lent words, report bytes in the lent store.
#![tactic(auto)]

ghost use Rattle.std.specs.Prelude.{◌≡◌, ◌≤◌, length};
ghost use Rattle.state_places.specs.Sizes.{most_reports, data_size};
ghost use Rattle.adv_reports.specs.Reports.{no_response};
ghost use Rattle.adv_report_tables.specs.Tables.{kept_response};
ghost use Rattle.state_refusals.specs.Refusals.{told_number};
ghost use Rattle.radio_rules.specs.Hearing.{adv, advertised, scan_responded};
ghost use Rattle.words.specs.Tables as all;
ghost use Rattle.words.specs.Tables.{heard_in};
ghost use Rattle.state_core.specs.Reading.{central};
ghost use Rattle.central_answers.specs.Answers.{Leaves};
ghost use Rattle.radio_calls.specs.Kept.{line_at, heard_line, Keeps};
ghost use Rattle.radio_calls.specs.Outcomes.{outcome, taken};

use central_answers::Answer;
use radio_match::AdvAction;
use state::Address;
use state_core::Core;
use state_places::MAX_REPORTS;
use state_refusals::Refusal;
use time::Micros;
use words_report::{NO_RESPONSE, Report};

// Where the report of an advertisement stands, how many there are then, and the length of its scan response.
#[derive(Clone, Copy)]
struct Kept {
    place: usize,
    count: usize,
    response: u8,
}

// ---- the report

// At place i; where there is no such place, at the last, and the oldest goes.
fn put_line(tables: &mut [u64; 1152], i: usize, x: Report)
    requires { (x.len ≤ data_size) × (x.response ≤ no_response) }
    ensures { all.tables tables.new ≡ line_at (all.tables tables.old) i x }
{
    if i < MAX_REPORTS {
        words_report::put_report(tables, i, x);
        return;
    }
    words_report::shift_reports(tables);
    words_report::put_report(tables, adv_reports::LAST, x);
}

// The scan response of a known report stays; a new one has none.
fn kept_response(tables: &[u64; 1152], count: usize, i: usize) -> u8
    requires { count ≤ most_reports }
    ensures { (result ≡ kept_response (heard_in tables.now).response count i) × (result ≤ no_response) }
{
    if i < count {
        let was = words_report::report_at(tables, i);
        return was.response;
    }
    NO_RESPONSE
}

// The advertiser's report is updated, or is a new one.
fn keep(
    tables: &mut [u64; 1152],
    store: &mut [u8],
    count: usize,
    key: u64,
    at: Micros,
    channel: u8,
    pdu: u8,
    data: &[u8],
) -> Kept
    requires { (count ≤ most_reports) × (length «data».now ≤ data_size) }
    ensures { Keeps tables.old tables.new store.old store.new «data».now count
        (heard_line key at channel pdu «data».now) result.count result.place result.response }
{
    let i = words_report::find_report(tables, count, key);
    let response = kept_response(tables, count, i);
    let len = radio_rules::narrow(data.len());
    let x = Report {
        who: key,
        at,
        channel,
        pdu,
        len,
        response,
    };
    put_line(tables, i, x);
    adv_report_tables::put_block(store, i, data);
    let more = adv_report_tables::counted(count, i);
    let place = adv_report_tables::last_place(i);
    Kept {
        place,
        count: more,
        response,
    }
}

// ---- the calls

// An advertisement.
pub fn on_advertising(
    core: Core,
    tables: &mut [u64; 1152],
    store: &mut [u8],
    at: Micros,
    channel: u8,
    pdu: u8,
    address: Address,
    data: &[u8],
    to_central: bool,
) -> Answer<Core, AdvAction>
    ensures store_after { outcome result tables.new store.new
        ≡ advertised (central core tables.old) store.old (adv at channel pdu address «data».now to_central) }
    ensures refused { Leaves (told_number result.refusal) core result.state tables.old tables.new store.old store.new }
{
    let gate = state_fit::gate_quiet(core, tables, store.len(), at);
    if let Err(why) = radio_rules::then_data(gate, data.len()) {
        return central_answers::refuse(core, why, AdvAction::Nothing);
    }
    let running = core.running;
    if !radio_match::is_listening(running) {
        return central_answers::done(core, AdvAction::Nothing);
    }
    let key = adv_reports::key_of(address);
    let asked = core.key_count;
    let asks = radio_match::is_asking(running, pdu);
    let new = words_report::is_due(asks, tables, asked, key);
    if radio_rules::keys_full(new, asked) {
        return central_answers::refuse(core, Refusal::KeysFull, AdvAction::Nothing);
    }
    let kept = keep(tables, store, core.reports, key, at, channel, pdu, data);
    let mut o = core;
    o.reports = kept.count;
    if new {
        words_report::put_key(tables, asked, key);
        o.key_count = asked + 1;
        return central_answers::done(o, AdvAction::ScanRequest);
    }
    let step = running.step;
    let response = radio_match::response_of(store, kept.place, kept.response);
    let action = radio_match::choose(step, key, data, response, pdu, to_central);
    central_answers::done(o, action)
}

// A scan response goes to its advertiser's report.
pub fn on_scan_response(
    core: Core,
    tables: &mut [u64; 1152],
    store: &mut [u8],
    at: Micros,
    address: Address,
    data: &[u8],
) -> Answer<Core, ()>
    ensures store_after { taken result tables.new store.new
        ≡ scan_responded (central core tables.old) store.old at address «data».now }
    ensures refused { Leaves (told_number result.refusal) core result.state tables.old tables.new store.old store.new }
{
    let gate = state_fit::gate_quiet(core, tables, store.len(), at);
    if let Err(why) = radio_rules::then_data(gate, data.len()) {
        return central_answers::refuse(core, why, ());
    }
    let count = core.reports;
    let key = adv_reports::key_of(address);
    let i = words_report::find_report(tables, count, key);
    if i < count {
        let mut x = words_report::report_at(tables, i);
        x.at = at;
        x.response = radio_rules::narrow(data.len());
        words_report::put_report(tables, i, x);
        adv_reports::put_response(store, i, data);
        return central_answers::done(core, ());
    }
    central_answers::done(core, ())
}
