// What a call tells C, in words: its refusal, then the numbers of its answer. Words that an answer does not use are 0.
#![tactic(auto)]

ghost use Rattle.std.specs.Prelude.{◌≡◌, Ok, Some};
ghost use Rattle.c_told.specs.Told.{answer_words, refusal_words, advertised_words};
ghost use Rattle.c_told.specs.Read.{told_words, status_number, status_code, timer_words, handle_words, given_words, passed_words, report_refusal_words, seen_words, spot_words, sighting_words};

use adv_presence::Presence;
use radio_match::AdvAction;
use radio_sights::{AdvReport, Span};
use state::{LinkRequest, Sent, StepStatus};
use state_readers::{Given, Passed};
use time::Micros;

// What a call asks of the link: nothing, an update of its parameters, its end.
const NOTHING: u64 = 0;

const UPDATE: u64 = 1;

const TERMINATE: u64 = 2;

// What is to be sent to an advertiser.
const SCAN_REQUEST: u64 = 1;

const CONNECT: u64 = 2;

// Whether there is what was asked for.
const THERE: u64 = 1;

// ---- calls that change the state

// Of a call that may send: refusal, frames, bytes, request; interval, latency and timeout of an update; the reason of a termination.
pub fn answer_words(refusal: u8, sent: Sent) -> [u64; 8]
    ensures { result ≡ answer_words refusal sent }
{
    let why = refusal as u64;
    let frames = sent.frames as u64;
    let bytes = sent.bytes as u64;
    let request = sent.request;
    match request {
        None => [why, frames, bytes, NOTHING, 0, 0, 0, 0],
        Some(
            LinkRequest::Update {
                interval,
                latency,
                timeout,
            },
        ) => [
            why,
            frames,
            bytes,
            UPDATE,
            interval as u64,
            latency as u64,
            timeout as u64,
            0,
        ],
        Some(LinkRequest::Terminate { reason }) => {
            [why, frames, bytes, TERMINATE, 0, 0, 0, reason as u64]
        }
    }
}

// Of a call that sends nothing: its refusal alone.
pub fn refusal_words(refusal: u8) -> [u64; 8]
    ensures { result ≡ refusal_words refusal }
{
    [refusal as u64, 0, 0, 0, 0, 0, 0, 0]
}

// Of an advertisement: refusal, action; interval, latency and timeout of a connection.
pub fn advertised_words(refusal: u8, action: AdvAction) -> [u64; 8]
    ensures { result ≡ advertised_words refusal action }
{
    let why = refusal as u64;
    match action {
        AdvAction::Nothing => [why, NOTHING, 0, 0, 0, 0, 0, 0],
        AdvAction::ScanRequest => [why, SCAN_REQUEST, 0, 0, 0, 0, 0, 0],
        AdvAction::Connect(p) => [
            why,
            CONNECT,
            p.interval as u64,
            p.latency as u64,
            p.timeout as u64,
            0,
            0,
            0,
        ],
    }
}

// ---- calls that only read: refusal, whether there is what was asked for, its numbers

// When the running step ends by itself.
pub fn timer_words(x: Result<Option<Micros>, u8>) -> [u64; 8]
    ensures { result ≡ told_words refusal_words timer_words x }
{
    match x {
        Err(why) => refusal_words(why),
        Ok(None) => [0; 8],
        Ok(Some(at)) => [0, THERE, at.0, 0, 0, 0, 0, 0],
    }
}

// The handle of the link.
pub fn handle_words(x: Result<Option<u16>, u8>) -> [u64; 8]
    ensures { result ≡ told_words refusal_words handle_words x }
{
    match x {
        Err(why) => refusal_words(why),
        Ok(None) => [0; 8],
        Ok(Some(handle)) => [0, THERE, handle as u64, 0, 0, 0, 0, 0],
    }
}

// Kept: a match, since a status with a code in it has no number to cast, and these numbers are C's.
fn status_number(s: StepStatus) -> u64
    ensures { result ≡ status_number s }
{
    match s {
        StepStatus::Ok => 0,
        StepStatus::Timeout => 1,
        StepStatus::NotConnected => 2,
        StepStatus::NotFound => 3,
        StepStatus::AttError(_) => 4,
        StepStatus::TooLong => 5,
        StepStatus::Disconnected => 6,
        StepStatus::TableFull => 7,
        StepStatus::BearerClosed => 8,
    }
}

// The ATT error code of a status that has one.
fn status_code(s: StepStatus) -> u64
    ensures { result ≡ status_code s }
{
    match s {
        StepStatus::AttError(code) => u64::from(code),
        _ => 0,
    }
}

// A result: time, status, ATT error code, place and length of its value.
pub fn given_words(x: Result<Option<Given>, u8>) -> [u64; 8]
    ensures { result ≡ told_words refusal_words given_words x }
{
    match x {
        Err(why) => refusal_words(why),
        Ok(None) => [0; 8],
        Ok(Some(g)) => {
            let number = status_number(g.status);
            let code = status_code(g.status);
            let value = g.value;
            [
                0,
                THERE,
                g.at.0,
                number,
                code,
                value.at as u64,
                value.len as u64,
                0,
            ]
        }
    }
}

// A notification: time, link, handle, whether it is an indication, place and length of its value.
pub fn passed_words(x: Result<Option<Passed>, u8>) -> [u64; 8]
    ensures { result ≡ told_words refusal_words passed_words x }
{
    match x {
        Err(why) => refusal_words(why),
        Ok(None) => [0; 8],
        Ok(Some(p)) => {
            let on = p.handle as u64;
            let kind = u64::from(p.indication);
            let value = p.value;
            [
                0,
                THERE,
                p.at.0,
                p.link,
                on,
                kind,
                value.at as u64,
                value.len as u64,
            ]
        }
    }
}

// ---- views

// A report: time, channel, PDU type, address, place and length of its data, whether it has a scan response, its place and length.
pub fn seen_words(x: Result<Option<AdvReport>, u8>) -> [u64; 12]
    ensures { result ≡ told_words report_refusal_words seen_words x }
{
    match x {
        Err(why) => [why as u64, 0, 0, 0, 0, 0, 0, 0, 0, 0, 0, 0],
        Ok(None) => [0; 12],
        Ok(Some(report)) => report_words(report),
    }
}

fn report_words(r: AdvReport) -> [u64; 12]
    ensures { result ≡ seen_words (Ok (Some r)) }
{
    let key = adv_reports::key_of(r.address);
    let data = r.data;
    let there = u64::from(r.response.is_some());
    let answer = radio_sights::span_of(r.response);
    [
        0,
        THERE,
        r.at.0,
        r.channel as u64,
        r.pdu as u64,
        key,
        data.at as u64,
        data.len as u64,
        there,
        answer.at as u64,
        answer.len as u64,
        0,
    ]
}

// Bytes in the store: their place and length.
pub fn spot_words(x: Result<Option<Span>, u8>) -> [u64; 8]
    ensures { result ≡ told_words refusal_words spot_words x }
{
    match x {
        Err(why) => refusal_words(why),
        Ok(None) => [0; 8],
        Ok(Some(s)) => [0, THERE, s.at as u64, s.len as u64, 0, 0, 0, 0],
    }
}

// What a report tells of a service: 0 absent, 1 listed, 2 unknown.
pub fn sighting_words(x: Result<Option<Presence>, u8>) -> [u64; 8]
    ensures { result ≡ told_words refusal_words sighting_words x }
{
    match x {
        Err(why) => refusal_words(why),
        Ok(None) => [0; 8],
        Ok(Some(presence)) => {
            let number = u32::from(presence);
            [0, THERE, number as u64, 0, 0, 0, 0, 0]
        }
    }
}
