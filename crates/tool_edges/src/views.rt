// The views of kept reports: numbers, and the bytes as parts of the lent store.
use crate::known;
use central::State;
use time::Micros;
use uuid_value::Uuid;

const ADV_IND: u8 = 0;

// Flags, then a list of 180F.
const DATA: [u8; 7] = [0x02, 0x01, 0x06, 0x03, 0x03, 0x0F, 0x18];

// A list of 180A and 180F.
const RESPONSE: [u8; 6] = [0x05, 0x03, 0x0A, 0x18, 0x0F, 0x18];

// This advertiser speaks.
fn hear(s: State, store: &mut [u8], low: u32, at: Micros, data: &[u8]) -> State {
    let address = known::address(low);
    central::on_advertising(s, store, at, 37, ADV_IND, address, data, false).state
}

// It answers a scan request.
fn answer(s: State, store: &mut [u8], low: u32, at: Micros, data: &[u8]) -> State {
    central::on_scan_response(s, store, at, known::address(low), data).state
}

// Report 0: an advertiser with no data.
fn silent(store: &mut [u8]) -> State {
    let s = known::scanning(store);
    hear(s, store, 1, Micros(1000), b"")
}

// Report 1: one that lists 180F, and answers.
fn listing(s: State, store: &mut [u8]) -> State {
    let x = hear(s, store, 2, Micros(2000), &DATA);
    answer(x, store, 2, Micros(3000), &RESPONSE)
}

fn tell_bytes(what: &[u8], s: &[u8]) {
    tool_say::told(what, s.len() as u64, b" bytes");
    tool_say::bytes(s);
    tool_say::line(b"");
}

fn tell_numbers(s: State, store: &[u8], i: usize) {
    let tables = s.tables;
    match radio_views::report(s.core, &tables, store, i) {
        Err(why) => tool_say::told(b": refusal ", why.number() as u64, b"\n"),
        Ok(None) => tool_say::line(b": none"),
        Ok(Some(r)) => {
            let at = r.at;
            let who = r.address;
            tool_say::told(b": at ", at.0, b" us");
            tool_say::told(b", advertiser ", who.low as u64, b"\n");
        }
    }
}

// Which list names the service.
fn tell_body(s: State, store: &[u8], i: usize, service: u16) {
    tool_say::text(b"    ");
    tool_say::hex(service as u64, 4);
    tell_bytes(
        b" is named in ",
        radio_views::report_body(s.core, &s.tables, store, i, Uuid::from(service)),
    );
}

fn tell(s: State, store: &[u8], i: usize) {
    tool_say::told(b"  report ", i as u64, b"");
    tell_numbers(s, store, i);
    tell_bytes(
        b"    data of ",
        radio_views::report_data(s.core, &s.tables, store, i),
    );
    tell_bytes(
        b"    scan response of ",
        radio_views::report_response(s.core, &s.tables, store, i),
    );
    for service in [0x180F, 0x180A, 0x1801] {
        tell_body(s, store, i, service);
    }
}

pub fn all() {
    let mut store = [0u8; state_places::STORE_SIZE];
    tool_say::line(b"Two advertisers are heard, and the second answers");
    let s = listing(silent(&mut store), &mut store);
    for i in 0..3 {
        tell(s, &store, i);
    }
    tool_say::line(b"The same with a store that is a byte short");
    tell(s, &store[0..43_630], 1);
}
