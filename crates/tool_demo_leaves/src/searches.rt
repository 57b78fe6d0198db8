// The name and the services of an advertisement, as the library finds them.
use uuid_value::Uuid;

fn name(what: &[u8], data: &[u8]) {
    tool_say::text(what);
    match adv_name::ad_local_name(data) {
        Some(body) => {
            tool_say::told(b" at byte ", body.at as u64, b": ");
            tool_say::part(data, body.at, body.len);
            tool_say::line(b"");
        }
        None => tool_say::line(b": none"),
    }
}

pub fn names(data: &[u8], response: &[u8]) {
    tool_say::line(b"");
    name(b"  The name in its advertising data", data);
    name(b"  The name in its scan response", response);
}

fn found(what: &[u8], start: usize) {
    tool_say::told(what, start as u64, b", in the list");
}

fn find<'a>(data: &'a [u8], response: &'a [u8], u: Uuid) {
    match adv_data::search(data, u) {
        Some(body) => found(b": in the advertising data at byte ", body.at),
        None => match adv_data::search(response, u) {
            Some(body) => found(b": in the scan response at byte ", body.at),
            None => tool_say::text(b": not listed"),
        },
    }
    tool_say::bytes(adv_listing::listed_body(data, response, u));
    tool_say::line(b"");
}

// The search for a service that is named by text.
pub fn service<'a>(named: &[u8], data: &'a [u8], response: &'a [u8]) {
    tool_say::text(b"  Service ");
    tool_say::text(named);
    match uuid_text::parse(named) {
        Some(u) => find(data, response, u),
        None => tool_say::line(b": that is no UUID"),
    }
}
