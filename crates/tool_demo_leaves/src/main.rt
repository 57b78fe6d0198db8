// The library at work, in plain words: one bay head's advertisement taken apart and searched, what heads tell of a service, and
// connection parameter requests judged and answered.
#![tactic(auto)]

mod presences;
mod requests;
mod searches;
mod structures;

use l2cap_params::Request;

// What a bay head advertises: flags, two 16-bit services and a 128-bit one.
const DATA: [u8; 27] = [
    0x02, 0x01, 0x06, 0x05, 0x03, 0x0F, 0x18, 0x0A, 0x18, 0x11, 0x07, 0x9E, 0xCA, 0xDC, 0x24, 0x0E,
    0xE5, 0xA9, 0xE0, 0x93, 0xF3, 0xA3, 0xB5, 0x01, 0x00, 0x40, 0x6E,
];

// What it adds to a scan: a name and one more service.
const RESPONSE: [u8; 13] = [
    0x08, 0x09, b'B', b'a', b'y', b' ', b'0', b'4', b'2', 0x03, 0x02, 0xED, 0xFE,
];

// Flags, and a list whose length says more than is there.
const DAMAGED: [u8; 7] = [0x02, 0x01, 0x06, 0x05, 0x03, 0x0F, 0x18];

fn services<'a>(data: &'a [u8], response: &'a [u8]) {
    tool_say::line(b"");
    searches::service(b"180F", data, response);
    searches::service(b"6E400001-B5A3-F393-E0A9-E50E24DCCA9E", data, response);
    searches::service(b"FEED", data, response);
}

fn no_services<'a>(data: &'a [u8], response: &'a [u8]) {
    searches::service(b"1234", data, response);
    searches::service(b"18OF", data, response);
}

fn advertisement(data: &[u8], response: &[u8]) {
    tool_say::line(b"A bay head advertises.");
    structures::tell(b"  Its advertising data, ", data);
    structures::tell(b"  Its scan response, ", response);
    searches::names(data, response);
}

fn damage(data: &[u8]) {
    tool_say::line(b"");
    structures::tell(b"A damaged advertisement, ", data);
    searches::service(b"180F", data, data);
}

// What a head asks for: intervals, latency and timeout.
const REQUESTS: [Request; 5] = [
    Request {
        min: 6,
        max: 3200,
        latency: 0,
        timeout: 801,
    },
    Request {
        min: 6,
        max: 3200,
        latency: 0,
        timeout: 800,
    },
    Request {
        min: 5,
        max: 12,
        latency: 0,
        timeout: 100,
    },
    Request {
        min: 24,
        max: 12,
        latency: 0,
        timeout: 100,
    },
    Request {
        min: 6,
        max: 12,
        latency: 500,
        timeout: 3200,
    },
];

fn judgements() {
    tool_say::line(b"");
    tool_say::line(b"A head asks for other connection parameters.");
    for request in REQUESTS {
        requests::judge(request);
    }
}

fn main() {
    let data = DATA;
    let response = RESPONSE;
    let damaged = DAMAGED;
    advertisement(&data, &response);
    services(&data, &response);
    no_services(&data, &response);
    damage(&damaged);
    presences::heads();
    judgements();
}
