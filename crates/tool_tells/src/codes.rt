// Numbers that stand for reasons, in words.
use state::StepStatus;
use state_refusals::Refusal;

// Core Vol 1 Part F 1.3.
const REMOTE_USER_TERMINATED: u8 = 0x13;

// Why a link is to end.
pub fn reason(x: u8) {
    match x {
        REMOTE_USER_TERMINATED => tool_say::text(b"remote user ended the connection"),
        _ => tool_say::text(b"another reason"),
    }
}

// ATT error codes, Core Vol 3 Part F 3.4.1.1.
fn error(x: u8) -> &'static [u8] {
    match x {
        0x01 => b"invalid handle",
        0x02 => b"read not permitted",
        0x03 => b"write not permitted",
        0x04 => b"invalid PDU",
        0x05 => b"insufficient authentication",
        0x06 => b"request not supported",
        0x07 => b"invalid offset",
        0x08 => b"insufficient authorization",
        0x09 => b"prepare queue full",
        0x0A => b"attribute not found",
        0x0B => b"attribute not long",
        0x0C => b"encryption key too short",
        0x0D => b"invalid value length",
        0x0E => b"unlikely error",
        0x0F => b"insufficient encryption",
        0x10 => b"unsupported group type",
        0x11 => b"insufficient resources",
        _ => b"another error",
    }
}

// An ATT error's number, and what it means.
pub fn att_error(x: u8) {
    tool_say::told(b"error ", x as u64, b": ");
    tool_say::text(error(x));
}

// Why a call is refused.
fn why(x: Refusal) {
    match x {
        Refusal::Unfit => tool_say::text(b"the state is not fit"),
        Refusal::WrongSize => tool_say::text(b"store or output of another size"),
        Refusal::LateTime => tool_say::text(b"the time is above 2^62 microseconds"),
        Refusal::BadBatch => tool_say::text(b"a batch, or a step of it, is too large"),
        Refusal::CounterFull => tool_say::text(b"a counter is at its end"),
        Refusal::LongData => tool_say::text(b"data of over 31 bytes"),
        Refusal::LongFrame => tool_say::text(b"a frame of over 251 bytes"),
        Refusal::KeysFull => tool_say::text(b"128 advertisers were asked"),
    }
}

// A refusal, where there is one.
pub fn refused(x: Option<Refusal>) {
    if let Some(refusal) = x {
        tool_say::told(b"    refused by ", refusal.number() as u64, b": ");
        why(refusal);
        tool_say::line(b"");
    }
}

// How a step ended.
pub fn status(s: StepStatus) {
    tool_say::text(match s {
        StepStatus::Ok => b"ok",
        StepStatus::Timeout => b"timeout",
        StepStatus::NotConnected => b"not connected",
        StepStatus::NotFound => b"not found",
        StepStatus::AttError(code) => return att_error(code),
        StepStatus::TooLong => b"too long",
        StepStatus::Disconnected => b"disconnected",
        StepStatus::TableFull => b"table full",
        StepStatus::BearerClosed => b"bearer closed",
    });
}
