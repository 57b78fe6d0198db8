// Whether a head is one of ours, as field staff ask: it lists the battery service, it does not, or it cannot be told.
use adv_presence::Presence;
use uuid_value::Uuid;

const BATTERY: u16 = 0x180F;

// Lists of 16-bit services: with 180F, without it, and incomplete.
const WITH: [u8; 6] = [0x05, 0x03, 0x0A, 0x18, 0x0F, 0x18];

const WITHOUT: [u8; 4] = [0x03, 0x03, 0x0A, 0x18];

const INCOMPLETE: [u8; 4] = [0x03, 0x02, 0x0A, 0x18];

// A list of two services, cut after the first.
const CUT: [u8; 4] = [0x05, 0x03, 0x0A, 0x18];

fn verdict(p: Presence) {
    match p {
        Presence::Listed => tool_say::line(b": listed, so it is ours"),
        Presence::Absent => tool_say::line(b": absent, so it is not ours"),
        Presence::Unknown => tool_say::line(b": unknown, so it may be ours: ask it"),
    }
}

fn head(what: &[u8], data: &[u8], response: &[u8]) {
    tool_say::text(what);
    tool_say::bytes(data);
    if !response.is_empty() {
        tool_say::text(b", then scan response");
        tool_say::bytes(response);
    }
    verdict(adv_presence::service_presence(data, response, Uuid::from(BATTERY)));
}

pub fn heads() {
    let with = WITH;
    let without = WITHOUT;
    let incomplete = INCOMPLETE;
    let cut = CUT;
    tool_say::line(b"");
    tool_say::line(b"Which heads have the battery service, 180F?");
    head(b"  A complete list,", &with, b"");
    head(b"  A complete list,", &without, b"");
    head(b"  An incomplete list,", &incomplete, b"");
    head(b"  A list that is cut,", &cut, b"");
    head(b"  An incomplete list,", &incomplete, &with);
}
