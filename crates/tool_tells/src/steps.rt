// What a step is to do.
use crate::names;
use notifications::Age;
use state::{Step, Target};
use time::{Micros, Millis};
use uuid_value::Uuid;

// A span behind words.
pub fn millis(before: &[u8], ms: Millis) {
    let span = time::deadline(Micros(0), ms);
    tool_say::text(before);
    tool_say::clock::span(span.0);
}

fn named(before: &[u8], u: Uuid) {
    tool_say::text(before);
    names::name(u);
}

// A step that has nothing to do with a link.
fn alone(s: Step) {
    match s {
        Step::Scan { ms } => millis(b"Scan for ", ms),
        Step::Wait { ms } => millis(b"Wait for ", ms),
        Step::Capture { enabled: _ } => tool_say::text(b"Capture"),
        _ => tool_say::text(b"CaptureSecrets"),
    }
}

fn connect(target: Target, within: Millis) {
    match target {
        Target::Any => tool_say::text(b"Connect to any head"),
        Target::Address(_) => tool_say::text(b"Connect to an address"),
        Target::Service(u) => named(b"Connect to a head that lists ", u),
    }
    millis(b", within ", within);
}

// A step about the link, or else one that has nothing to do with it.
fn linking(s: Step) {
    match s {
        Step::Connect {
            target,
            interval: _,
            latency: _,
            timeout: _,
            within_ms,
        } => connect(target, within_ms),
        Step::ExchangeMtu { mtu } => tool_say::told(b"ExchangeMtu ", mtu as u64, b""),
        Step::DiscoverServices => tool_say::text(b"DiscoverServices"),
        Step::Disconnect => tool_say::text(b"Disconnect"),
        _ => alone(s),
    }
}

fn wait(characteristic: Uuid, within: Millis, age: Age) {
    named(b"WaitNotification of ", characteristic);
    millis(b", within ", within);
    match age {
        Age::Any => (),
        Age::Within(ms) => {
            millis(b", of this link and at most ", ms);
            tool_say::text(b" old");
        }
    }
}

pub fn step(s: Step) {
    match s {
        Step::DiscoverCharacteristics { service } => named(b"DiscoverCharacteristics of ", service),
        Step::Subscribe {
            characteristic,
            indicate: _,
        } => named(b"Subscribe to ", characteristic),
        Step::Write {
            characteristic,
            with_response: _,
        } => named(b"Write to ", characteristic),
        Step::Read { characteristic } => named(b"Read ", characteristic),
        Step::WaitNotification {
            characteristic,
            within_ms,
            age,
        } => wait(characteristic, within_ms, age),
        _ => linking(s),
    }
}
