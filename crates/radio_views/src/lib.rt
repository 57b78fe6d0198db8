// One report of a state in numbers, for whoever reads it: where its bytes stand in the store, or the bytes themselves.
#![tactic(auto)]

ghost use Rattle.std.specs.Prelude.{◌≡◌, ◌+◌, ◌≤◌, ◌<◌, length};
ghost use Rattle.state_places.specs.Sizes.{most_reports};
ghost use Rattle.uuid_value.specs.Value.{num};
ghost use Rattle.radio_sights.specs.View.{response_in, view, data_in, answer_in, part, part_at, body_seen, body_seen_at};
ghost use Rattle.state_core.specs.Reading.{central};
ghost use Rattle.adv_presence.specs.Presences.{presence_in};
ghost use Rattle.radio_views.specs.Presences.{presence_seen};
ghost use Rattle.radio_views.specs.Spots.{place_in, body_in, data_seen, response_seen, body_spot};

use adv_presence::Presence;
pub use radio_sights::{AdvReport, Span};
use state_core::Core;
use state_places::MAX_DATA;
use state_refusals::Refusal;
use uuid_value::Uuid;

// ---- report i

// The scan response of report i, if its length is one.
fn response_in(i: usize, len: u8) -> Option<Span>
    requires { i < most_reports }
    ensures { result ≡ response_in i len }
{
    let len = usize::from(len);
    if MAX_DATA < len {
        return None;
    }
    Some(Span {
        at: state_places::response_at(i),
        len,
    })
}

// Report i.
pub fn report(
    core: Core,
    tables: &[u64; 1152],
    store: &[u8],
    i: usize,
) -> Result<Option<AdvReport>, Refusal>
    ensures { result ≡ view (central core tables.now) (length store.now) i }
{
    state_fit::gate_reader(core, tables, store.len())?;
    if core.reports <= i {
        return Ok(None);
    }
    let x = words_report::report_at(tables, i);
    let address = adv_reports::address_of(x.who);
    let place = state_places::report_at(i);
    let len = usize::from(x.len);
    let response = response_in(i, x.response);
    Ok(Some(AdvReport {
        address,
        at: x.at,
        channel: x.channel,
        pdu: x.pdu,
        data: Span { at: place, len },
        response,
    }))
}

// ---- where its bytes stand

// Where the advertising data of report i stands.
pub fn report_data_at(
    core: Core,
    tables: &[u64; 1152],
    store: &[u8],
    i: usize,
) -> Result<Option<Span>, Refusal>
    ensures { result ≡ data_seen (view (central core tables.now) (length store.now) i) }
{
    let seen = report(core, tables, store, i)?;
    Ok(seen.map(|r| r.data))
}

// Where the scan response of report i stands: nowhere, if it has none.
pub fn report_response_at(
    core: Core,
    tables: &[u64; 1152],
    store: &[u8],
    i: usize,
) -> Result<Option<Span>, Refusal>
    ensures { result ≡ response_seen (view (central core tables.now) (length store.now) i) }
{
    let seen = report(core, tables, store, i)?;
    Ok(seen.and_then(|r| r.response))
}

// Where in the store the body of the structure stands that lists the service, of those in a part of the store.
fn search_in(store: &[u8], x: Span, uuid: Uuid) -> Option<Span>
    requires { x.at + x.len ≤ length store.now }
    ensures { result ≡ place_in (num uuid) store.now x }
{
    let body = adv_data::search(part(store, x), uuid)?;
    let at = x.at + body.at;
    Some(Span { at, len: body.len })
}

// Of the structures in the data, or else in the answer.
fn body_in(store: &[u8], data: Span, answer: Span, uuid: Uuid) -> Option<Span>
    requires { («data».at + «data».len ≤ length store.now) × (answer.at + answer.len ≤ length store.now) }
    ensures { result ≡ body_in (num uuid) store.now «data» answer }
{
    search_in(store, data, uuid).or_else(|| search_in(store, answer, uuid))
}

// Where the body of the structure of report i stands that lists the service, of its data or else of its scan response: nowhere, if none does.
pub fn report_body_at(
    core: Core,
    tables: &[u64; 1152],
    store: &[u8],
    i: usize,
    uuid: Uuid,
) -> Result<Option<Span>, Refusal>
    ensures { result ≡ body_spot (num uuid) store.now (view (central core tables.now) (length store.now) i) }
{
    match report(core, tables, store, i)? {
        Some(r) => {
            let answer = radio_sights::span_of(r.response);
            Ok(body_in(store, r.data, answer, uuid))
        }
        None => Ok(None),
    }
}

// ---- what it tells of a service

// What two parts of the store tell of the service.
fn presence_in(store: &[u8], data: Span, answer: Span, uuid: Uuid) -> Presence
    requires { («data».at + «data».len ≤ length store.now) × (answer.at + answer.len ≤ length store.now) }
    ensures { result ≡ presence_in (num uuid) (part store.now «data») (part store.now answer) }
{
    adv_presence::service_presence(part(store, data), part(store, answer), uuid)
}

// Whether report i lists the service, does not, or cannot tell, by its data and its scan response.
pub fn report_presence(
    core: Core,
    tables: &[u64; 1152],
    store: &[u8],
    i: usize,
    uuid: Uuid,
) -> Result<Option<Presence>, Refusal>
    ensures { result ≡ presence_seen (num uuid) store.now (view (central core tables.now) (length store.now) i) }
{
    match report(core, tables, store, i)? {
        Some(r) => {
            let answer = radio_sights::span_of(r.response);
            Ok(Some(presence_in(store, r.data, answer, uuid)))
        }
        None => Ok(None),
    }
}

// ---- the bytes themselves

// The bytes of a span of the store.
fn part(store: &[u8], x: Span) -> &[u8]
    requires { x.at + x.len ≤ length store.now }
    ensures result_value { result.now ≡ part store.now x }
    ensures ref_ptr_value { result.ref_ptr ≡ part_at store.entry.ref_ptr x }
{
    &store[x.at..x.at + x.len]
}

// The advertising data of report i, or no bytes.
pub fn report_data<'a>(core: Core, tables: &[u64; 1152], store: &'a [u8], i: usize) -> &'a [u8]
    ensures result_value { result.now ≡ part store.now (data_in (view (central core tables.now) (length store.now) i)) }
    ensures ref_ptr_value { result.ref_ptr ≡ part_at store.entry.ref_ptr (data_in (view (central core tables.now) (length store.now) i)) }
{
    let x = radio_sights::data_in(report(core, tables, store, i));
    part(store, x)
}

// The scan response of report i, or no bytes.
pub fn report_response<'a>(core: Core, tables: &[u64; 1152], store: &'a [u8], i: usize) -> &'a [u8]
    ensures result_value { result.now ≡ part store.now (answer_in (view (central core tables.now) (length store.now) i)) }
    ensures ref_ptr_value { result.ref_ptr ≡ part_at store.entry.ref_ptr (answer_in (view (central core tables.now) (length store.now) i)) }
{
    let x = radio_sights::answer_in(report(core, tables, store, i));
    part(store, x)
}

// The body of the structure of report i that lists the service: of its data, or else of its scan response.
pub fn report_body<'a>(
    core: Core,
    tables: &[u64; 1152],
    store: &'a [u8],
    i: usize,
    uuid: Uuid,
) -> &'a [u8]
    ensures result_value { result.now ≡ body_seen (num uuid) store.now (view (central core tables.now) (length store.now) i) }
    ensures ref_ptr_value { result.ref_ptr ≡ body_seen_at (num uuid) store.now store.entry.ref_ptr (view (central core tables.now) (length store.now) i) }
{
    let data = report_data(core, tables, store, i);
    let response = report_response(core, tables, store, i);
    adv_listing::listed_body(data, response, uuid)
}
