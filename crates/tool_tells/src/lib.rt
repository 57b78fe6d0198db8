// What calls give, in plain words: frames, link requests, results, moments.
#![tactic(auto)]

ghost use Rattle.std.specs.Prelude.{◌<◌};

pub mod codes;
pub mod names;
mod pdu;
pub mod steps;

use bytes_bounds::Span;
use state::{LinkRequest, Sent};
use state_readers::Given;
use state_refusals::Refusal;
use time::Micros;

fn with_bytes(sends: bool, s: &[u8]) {
    if sends {
        tool_say::text(b"    sends");
    } else {
        tool_say::text(b"    hears");
    }
    tool_say::bytes(s);
    tool_say::text(b": ");
    pdu::name(s);
    tool_say::line(b"");
}

// A line of a timeline that is no step's: it has no end.
pub fn mark(at: Micros, words: &[u8]) {
    tool_say::clock::column(at.0);
    tool_say::spaces(0, tool_say::clock::COLUMN);
    tool_say::text(words);
}

fn arrow(at: Micros, sends: bool, s: &[u8]) {
    if sends {
        mark(at, b"     -> ");
    } else {
        mark(at, b"     <- ");
    }
    pdu::name(s);
    tool_say::line(b"");
}

// A frame's line: its bytes and what it is; or its time and what it is, for a timeline.
fn frame(at: Option<Micros>, sends: bool, s: &[u8]) {
    match at {
        None => with_bytes(sends, s),
        Some(at) => arrow(at, sends, s),
    }
}

// A whole frame that comes in.
pub fn heard(s: &[u8]) {
    frame(None, false, s);
}

pub fn heard_at(at: Micros, s: &[u8]) {
    frame(Some(at), false, s);
}

// How long the frame is that begins here, by what it says.
fn frame_size(s: &[u8]) -> usize
    ensures { 0 < result }
{
    pdu::HEADER + bytes_numbers::le16(s, 0) as usize
}

// The frames among the first bytes of an output, one after another.
fn frames(at: Option<Micros>, out: &[u8], bytes: usize) {
    let mut rest = out.get(..bytes).unwrap_or(&[]);
    // Kept: a while let, since how far a frame goes stands in the frame: no range and no chunks have that step.
    while let Some((first, behind)) = rest.split_at_checked(frame_size(rest)) {
        frame(at, true, first);
        rest = behind;
    }
}

fn update(interval: u16, latency: u16, timeout: u16) {
    tool_say::told(
        b"    asks for an update of the link: interval ",
        interval as u64,
        b"",
    );
    tool_say::told(b", latency ", latency as u64, b"");
    tool_say::told(b", timeout ", timeout as u64, b"\n");
}

fn terminate(reason: u8) {
    tool_say::told(
        b"    asks for the end of the link, reason ",
        reason as u64,
        b": ",
    );
    codes::reason(reason);
    tool_say::line(b"");
}

fn request(r: Option<LinkRequest>) {
    match r {
        None => (),
        Some(
            LinkRequest::Update {
                interval,
                latency,
                timeout,
            },
        ) => update(interval, latency, timeout),
        Some(LinkRequest::Terminate { reason }) => terminate(reason),
    }
}

// What a call sent: each frame, and the link request if there is one.
pub fn sent(s: Sent, out: &[u8]) {
    frames(None, out, s.bytes);
    request(s.request);
}

// Each frame that a call sent, in a timeline.
pub fn sent_at(at: Micros, s: Sent, out: &[u8]) {
    frames(Some(at), out, s.bytes);
}

// A moment, as a clock shows it.
pub fn moment(at: Micros) {
    tool_say::clock::time(at.0);
}

// A result, and its value where it has one. Whether there was one.
pub fn result(index: u32, g: Result<Option<Given>, Refusal>, store: &[u8]) -> bool {
    match g {
        Err(why) => {
            codes::refused(Some(why));
            false
        }
        Ok(None) => false,
        Ok(Some(g)) => {
            tool_say::told(b"    step ", index as u64, b" ended: ");
            codes::status(g.status);
            tool_say::text(b", at ");
            moment(g.at);
            value(value_at(store, g.value));
            tool_say::line(b"");
            true
        }
    }
}

// The bytes of the store that stand at x; none where they are not there.
pub fn value_at(store: &[u8], x: Span) -> &[u8] {
    let rest = store.get(x.at..).unwrap_or(&[]);
    rest.get(..x.len).unwrap_or(&[])
}

fn value(v: &[u8]) {
    if v.is_empty() {
        return;
    }
    tool_say::text(b", value");
    tool_say::bytes(v);
    if utf8::is_utf8(v) {
        tool_say::text(b", as text: ");
        tool_say::text(v);
    }
}
