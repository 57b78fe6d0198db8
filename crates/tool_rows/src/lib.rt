// What each thing of an answer or of a state is in words (docs/TRACE.md, 'Lines'). Bytes stand in s.
#![tactic(auto)]

use gatt_characteristics::Characteristic;
use gatt_services::Service;
use notifications::{Age, Notification};
use radio_match::AdvAction;
use state::{
    Bearer, LinkRequest, Options, Queued, Running, Sent, Step, StepResult, StepStatus, Target,
};
use state_readers::{Given, Passed};
use state_refusals::Refusal;
use time::Micros;
use tool_lines::line::Line;

// What was heard of an advertiser: one report. The length of its scan response, if there is one.
#[derive(Clone, Copy)]
pub struct Advertiser {
    pub key: u64,
    pub at: u64,
    pub channel: u8,
    pub pdu: u8,
    pub len: u8,
    pub response: Option<u8>,
}

// ---- single words

fn none(line: &mut Line) {
    line.word(b"none");
}

// ---- steps

fn target(line: &mut Line, t: Target) {
    match t {
        Target::Any => line.word(b"any"),
        Target::Address(x) => {
            line.word(b"address");
            line.key(adv_reports::key_of(x));
        }
        Target::Service(u) => {
            line.word(b"service");
            line.uuid(u);
        }
    }
}

fn parameters(line: &mut Line, interval: u16, latency: u16, timeout: u16) {
    line.number(interval);
    line.number(latency);
    line.number(timeout);
}

// Of an aged wait, two words more.
fn age(line: &mut Line, a: Age) {
    match a {
        Age::Any => (),
        Age::Within(t) => {
            line.word(b"aged");
            line.number(t.0);
        }
    }
}

// The value's bytes stand at a place of s.
fn step(line: &mut Line, x: Step, s: &[u8], place: usize, len: u8) {
    line.number(state_kinds::kind_of(x));
    match x {
        Step::Scan { ms } | Step::Wait { ms } => line.number(ms.0),
        Step::Connect {
            target: t,
            interval,
            latency,
            timeout,
            within_ms,
        } => {
            parameters(line, interval, latency, timeout);
            line.number(within_ms.0);
            target(line, t);
        }
        Step::ExchangeMtu { mtu } => line.number(mtu),
        Step::DiscoverServices | Step::Disconnect => (),
        Step::DiscoverCharacteristics { service } => line.uuid(service),
        Step::Subscribe {
            characteristic,
            indicate,
        } => {
            line.uuid(characteristic);
            line.number(indicate);
        }
        Step::Write {
            characteristic,
            with_response,
        } => {
            line.uuid(characteristic);
            line.number(with_response);
            line.bytes_at(s, place, len as usize);
        }
        Step::Read { characteristic } => line.uuid(characteristic),
        Step::WaitNotification {
            characteristic,
            within_ms,
            age: oldest,
        } => {
            line.uuid(characteristic);
            line.number(within_ms.0);
            line.bytes_at(s, place, len as usize);
            age(line, oldest);
        }
        Step::Capture { enabled } => line.number(enabled),
        Step::CaptureSecrets { secrets } => line.number(secrets),
    }
}

pub fn queued(line: &mut Line, x: Queued, s: &[u8], place: usize) {
    step(line, x.step, s, place, x.len);
}

fn deadline(line: &mut Line, r: Running) {
    if r.dated {
        line.number(r.deadline.0);
    } else {
        none(line);
    }
}

// All but the keys of a running step.
pub fn running(line: &mut Line, r: Running, s: &[u8]) {
    line.number(r.index);
    step(line, r.step, s, state_places::RUNNING_AT, r.len);
    deadline(line, r);
    line.number(r.phase);
    line.number(r.cursor);
}

// ---- results

// A status and the code of an ATT error, or 0.
fn status(line: &mut Line, x: StepStatus) {
    let (number, code) = match x {
        StepStatus::Ok => (0u8, 0),
        StepStatus::Timeout => (1, 0),
        StepStatus::NotConnected => (2, 0),
        StepStatus::NotFound => (3, 0),
        StepStatus::AttError(code) => (4, code),
        StepStatus::TooLong => (5, 0),
        StepStatus::Disconnected => (6, 0),
        StepStatus::TableFull => (7, 0),
        StepStatus::BearerClosed => (8, 0),
    };
    line.number(number);
    line.number(code);
}

// All but the value of a result.
fn ended(line: &mut Line, index: u32, t: Micros, x: StepStatus) {
    line.number(index);
    line.number(t.0);
    status(line, x);
}

pub fn kept(line: &mut Line, x: StepResult, s: &[u8], place: usize) {
    ended(line, x.index, x.at, x.status);
    line.bytes_at(s, place, x.len as usize);
}

// ---- tables

// The data and the scan response stand at places of s.
pub fn report(line: &mut Line, x: Advertiser, s: &[u8], place: usize, other: usize) {
    line.number(x.at);
    line.number(x.channel);
    line.number(x.pdu);
    line.key(x.key);
    line.bytes_at(s, place, x.len as usize);
    match x.response {
        Some(len) => line.bytes_at(s, other, len as usize),
        None => none(line),
    }
}

pub fn service(line: &mut Line, x: Service) {
    line.number(x.start);
    line.number(x.end);
    line.uuid(x.uuid);
}

fn cccd(line: &mut Line, c: Option<u16>) {
    match c {
        None => none(line),
        Some(handle) => line.number(handle),
    }
}

pub fn characteristic(line: &mut Line, x: Characteristic) {
    line.number(x.declaration);
    line.number(x.properties);
    line.number(x.value_handle);
    line.uuid(x.uuid);
    cccd(line, x.cccd);
}

pub fn notification(line: &mut Line, x: Notification, s: &[u8], place: usize) {
    line.number(x.at.0);
    line.number(x.handle);
    line.number(x.indication);
    line.bytes_at(s, place, x.len as usize);
}

fn pending(line: &mut Line, opcode: u8) {
    if opcode == 0 {
        none(line);
    } else {
        line.number(opcode);
    }
}

pub fn bearer(line: &mut Line, b: Bearer, s: &[u8]) {
    let l = b.link;
    if !b.present {
        none(line);
        return;
    }
    line.number(l.handle);
    line.number(l.mtu);
    pending(line, l.pending);
    line.number(l.terminating);
    line.bytes_at(s, state_places::HELD_AT, b.held);
}

// What was chosen, and what that has made of the bearer.
pub fn mode(line: &mut Line, o: Options, b: Bearer) {
    line.number(o.strict);
    line.number(b.closed);
}

// ---- answers: the refusal stands before what is answered

// No refusal.
fn taken(line: &mut Line) {
    line.number(0u8);
}

fn request(line: &mut Line, r: Option<LinkRequest>) {
    match r {
        None => none(line),
        Some(
            LinkRequest::Update {
                interval,
                latency,
                timeout,
            },
        ) => {
            line.word(b"update");
            parameters(line, interval, latency, timeout);
        }
        Some(LinkRequest::Terminate { reason }) => {
            line.word(b"terminate");
            line.number(reason);
        }
    }
}

// What a call sent: its bytes stand at the start of the output.
pub fn sent(line: &mut Line, x: Sent, out: &[u8]) {
    taken(line);
    line.number(x.frames as u64);
    line.bytes_at(out, 0, x.bytes);
    request(line, x.request);
}

fn action(line: &mut Line, a: AdvAction) {
    match a {
        AdvAction::Nothing => none(line),
        AdvAction::ScanRequest => line.word(b"scan"),
        AdvAction::Connect(p) => {
            line.word(b"connect");
            parameters(line, p.interval, p.latency, p.timeout);
        }
    }
}

pub fn refusal(line: &mut Line, refusal: Option<Refusal>) {
    line.number(state_refusals::told_number(refusal));
}

pub fn advertised(line: &mut Line, why: Option<Refusal>, a: AdvAction) {
    refusal(line, why);
    if why.is_none() {
        action(line, a);
    }
}

// The refusal, or 0 and what is answered, if there is something.
fn answered<T, F: Fn(&mut Line, T)>(line: &mut Line, x: Result<Option<T>, Refusal>, tell: F)
    requires { F.IsAlwaysCallable tell }
{
    match x {
        Err(why) => refusal(line, Some(why)),
        Ok(None) => {
            taken(line);
            none(line);
        }
        Ok(Some(x)) => {
            taken(line);
            tell(line, x);
        }
    }
}

pub fn timer(line: &mut Line, t: Result<Option<Micros>, Refusal>) {
    answered(line, t, |line, at| line.number(at.0));
}

pub fn handle(line: &mut Line, h: Result<Option<u16>, Refusal>) {
    answered(line, h, |line, handle| line.number(handle));
}

// The result of an index; its value's bytes stand in s.
pub fn given(line: &mut Line, index: u32, g: Result<Option<Given>, Refusal>, s: &[u8]) {
    answered(line, g, |line, x| {
        ended(line, index, x.at, x.status);
        line.bytes_at(s, x.value.at, x.value.len);
    });
}

// The notification that a result names; its value's bytes stand in s.
pub fn passed(line: &mut Line, p: Result<Option<Passed>, Refusal>, s: &[u8]) {
    answered(line, p, |line, x| {
        line.number(x.at.0);
        line.number(x.link);
        line.number(x.handle);
        line.number(x.indication);
        line.bytes_at(s, x.value.at, x.value.len);
    });
}
