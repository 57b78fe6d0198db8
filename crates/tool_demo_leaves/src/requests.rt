// Connection parameter requests: judged, with the reason, and answered.
ghost use Rattle.std.specs.Prelude.{◌≡◌, ◌<◌};

use l2cap::cid;
use l2cap_params::Request;

// Every request of the demo has this identifier.
const ID: u8 = 7;

// An interval counts 1.25 ms: so many hundredths of a millisecond.
const INTERVAL: u64 = 125;

// A timeout counts 10 ms.
const TIMEOUT: u64 = 1000;

fn milliseconds(hundredths: u64) {
    tool_say::number(hundredths / 100);
    if hundredths % 100 != 0 {
        tool_say::told(b".", hundredths % 100, b"");
    }
    tool_say::text(b" ms");
}

fn tell(r: Request) {
    tool_say::text(b"  Interval ");
    milliseconds(INTERVAL * u64::from(r.min));
    tool_say::text(b" to ");
    milliseconds(INTERVAL * u64::from(r.max));
    tool_say::told(b", latency ", u64::from(r.latency), b", timeout ");
    milliseconds(TIMEOUT * u64::from(r.timeout));
}

// Why intervals that are bad are bad.
fn interval_reason(r: Request) {
    if r.max < r.min {
        tool_say::line(b": bad, the least interval is above the greatest");
    } else {
        tool_say::line(b": bad, an interval is 7.5 ms to 4 s");
    }
}

// The timeout must hold twice the longest silence.
fn timeout_reason(r: Request) {
    tool_say::told(
        b": bad, the timeout must be 100 ms to 32 s and above 2 x ",
        1 + u64::from(r.latency),
        b" x ",
    );
    milliseconds(INTERVAL * u64::from(r.max));
    tool_say::line(b"");
}

// Why a request that is bad is bad.
fn reason(r: Request) {
    if (r.min < 6) | (3200 < r.max) | (r.max < r.min) {
        interval_reason(r);
    } else if 499 < r.latency {
        tool_say::line(b": bad, a head may skip 499 events at most");
    } else {
        timeout_reason(r);
    }
}

// The request as a payload of the signaling channel (Core Vol 3 Part A 4.20).
fn payload(r: Request) -> [u8; 12] {
    [
        l2cap_signaling::code::PARAMETER_UPDATE_REQ,
        ID,
        8,
        0,
        bytes_halves::lo(r.min),
        bytes_halves::hi(r.min),
        bytes_halves::lo(r.max),
        bytes_halves::hi(r.max),
        bytes_halves::lo(r.latency),
        bytes_halves::hi(r.latency),
        bytes_halves::lo(r.timeout),
        bytes_halves::hi(r.timeout),
    ]
}

// The frame that goes back.
fn answer(r: Request) {
    let request = payload(r);
    let mut out = [0u8; 16];
    let sent = match l2cap_signaling::on_signaling(&request).reply {
        Some(reply) => l2cap::l2cap(&mut out, 0, cid::SIGNALING, &reply),
        None => 0,
    };
    tool_say::text(b"    answered with");
    tool_say::first(&out, sent);
    tool_say::line(b"");
}

pub fn judge(r: Request) {
    tell(r);
    if r.is_good() {
        tool_say::line(b": good");
    } else {
        reason(r);
    }
    answer(r);
}
