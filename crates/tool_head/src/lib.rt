// A simulated bay head, for the demo: what it answers to a frame that the central sent, and what it notifies.
//
//   1 battery service, 180F            5 bay service, 6E400001-B5A3-F393-E0A9-E50E24DCCA9E
//   2   battery level, 2A19            6   occupancy, 6E400003-B5A3-F393-E0A9-E50E24DCCA9E
//   3     its value                    7     its value
//   4     its configuration            8     its configuration
//                                      9   string, 2A3D
//                                     10     its value
#![tactic(auto)]

use att_pdu::{err, op};
use l2cap::cid;
use std::ops::RangeInclusive;

pub mod uuids;

// A frame's payload stands behind its length and its channel.
const OPCODE_AT: usize = 4;

const START_AT: usize = 5;

const END_AT: usize = 7;

const MTU: u16 = 64;

const BATTERY: u16 = 1;

const LEVEL: u16 = 2;

const LEVEL_VALUE: u16 = 3;

const LEVEL_CONFIGURATION: u16 = 4;

const BAY: u16 = 5;

const OCCUPANCY: u16 = 6;

const OCCUPANCY_VALUE: u16 = 7;

const OCCUPANCY_CONFIGURATION: u16 = 8;

const STRING: u16 = 9;

const STRING_VALUE: u16 = 10;

fn send(to: &mut [u8], pdu: &[u8]) -> usize {
    l2cap::l2cap(to, 0, cid::ATT, pdu)
}

fn refuse(to: &mut [u8], opcode: u8, handle: u16, code: u8) -> usize {
    let pdu = att_pdu::att_error(opcode, handle, code);
    send(to, &pdu)
}

// What the head answers to a request about handles, by the first handle that it is about. UUIDs of 2 and 16 bytes do not go into one
// answer: a service an answer, and a characteristic.
static SERVICES: [(u16, &[u8]); 2] = [
    (BATTERY, b"\x11\x06\x01\x00\x04\x00\x0F\x18"),
    (
        BAY,
        b"\x11\x14\x05\x00\x0A\x00\x9E\xCA\xDC\x24\x0E\xE5\xA9\xE0\x93\xF3\xA3\xB5\x01\x00\x40\x6E",
    ),
];

static CHARACTERISTICS: [(u16, &[u8]); 3] = [
    (LEVEL, b"\x09\x07\x02\x00\x12\x03\x00\x19\x2A"),
    (
        OCCUPANCY,
        b"\x09\x15\x06\x00\x12\x07\x00\x9E\xCA\xDC\x24\x0E\xE5\xA9\xE0\x93\xF3\xA3\xB5\x03\x00\x40\x6E",
    ),
    (STRING, b"\x09\x07\x09\x00\x02\x0A\x00\x3D\x2A"),
];

// The central asks behind values alone: what can be there are configurations.
static DESCRIPTORS: [(u16, &[u8]); 2] = [
    (LEVEL_CONFIGURATION, b"\x05\x01\x04\x00\x02\x29"),
    (OCCUPANCY_CONFIGURATION, b"\x05\x01\x08\x00\x02\x29"),
];

// The first answer about one of these handles.
fn list(
    to: &mut [u8],
    answers: &[(u16, &[u8])],
    opcode: u8,
    handles: RangeInclusive<u16>,
) -> usize {
    match answers.iter().find(|a| handles.contains(&a.0)) {
        Some((_, pdu)) => send(to, pdu),
        None => refuse(to, opcode, *handles.start(), err::ATTRIBUTE_NOT_FOUND),
    }
}

fn read(to: &mut [u8], handle: u16) -> usize {
    match handle {
        LEVEL_VALUE => send(to, b"\x0B\x57"),
        STRING_VALUE => send(to, b"\x0BBay 042, level 2, north side"),
        _ => refuse(to, op::READ_REQ, handle, err::INVALID_HANDLE),
    }
}

fn write(to: &mut [u8], handle: u16) -> usize {
    match handle {
        LEVEL_CONFIGURATION | OCCUPANCY_CONFIGURATION => send(to, b"\x13"),
        _ => refuse(to, op::WRITE_REQ, handle, err::INVALID_HANDLE),
    }
}

fn exchange(to: &mut [u8]) -> usize {
    let pdu = att_pdu::exchange_mtu_rsp(MTU);
    send(to, &pdu)
}

// The head's answer to a frame, written to `to`: its length, or 0 for none.
pub fn answer(frame: &[u8], to: &mut [u8]) -> usize {
    let Some(opcode) = frame.get(OPCODE_AT) else {
        return 0;
    };
    let start = bytes_numbers::le16(frame, START_AT);
    let handles = start..=bytes_numbers::le16(frame, END_AT);
    match *opcode {
        op::EXCHANGE_MTU_REQ => exchange(to),
        op::READ_BY_GROUP_TYPE_REQ => list(to, &SERVICES, op::READ_BY_GROUP_TYPE_REQ, handles),
        op::READ_BY_TYPE_REQ => list(to, &CHARACTERISTICS, op::READ_BY_TYPE_REQ, handles),
        op::FIND_INFORMATION_REQ => list(to, &DESCRIPTORS, op::FIND_INFORMATION_REQ, handles),
        op::READ_REQ => read(to, start),
        op::WRITE_REQ => write(to, start),
        _ => 0,
    }
}

// The head tells of its own that the bay is taken, or free: the length of the frame in `to`.
pub fn notify(to: &mut [u8], taken: bool) -> usize {
    let value = [taken as u8];
    l2cap::att_frame(to, 0, op::HANDLE_VALUE_NTF, OCCUPANCY_VALUE, &value, 0, 1)
}
