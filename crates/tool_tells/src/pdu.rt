// What a frame is, in words: by its channel and, on the attribute channel, by its opcode.
use crate::{codes, names};
use att_pdu::op;

// A frame is a length, a channel and a payload.
pub const HEADER: usize = 4;

// What stands behind the opcode.
const BODY_AT: usize = HEADER + 1;

// A range's end, and an error's handle and code.
const END_AT: usize = BODY_AT + 2;

const BLAMED_AT: usize = BODY_AT + 1;

const CODE_AT: usize = BODY_AT + 3;

// What stands behind a handle, and behind the byte that tells how long an answer's entries are.
const VALUE_AT: usize = BODY_AT + 2;

const ENTRIES_AT: usize = BODY_AT + 1;

fn byte(s: &[u8], at: usize) -> u8 {
    s.get(at).copied().unwrap_or(0)
}

// The bytes from n on.
fn after(s: &[u8], n: usize) -> &[u8] {
    s.get(n..).unwrap_or(&[])
}

// Words and the number of two bytes.
fn number(words: &[u8], s: &[u8], at: usize) {
    tool_say::told(words, bytes_numbers::le16(s, at) as u64, b"");
}

fn range(words: &[u8], s: &[u8]) {
    tool_say::text(words);
    number(b" from handle ", s, BODY_AT);
    number(b" to ", s, END_AT);
}

fn error(s: &[u8]) {
    tool_say::text(b"an ");
    codes::att_error(byte(s, CODE_AT));
    number(b", at handle ", s, BLAMED_AT);
}

// ---- the entries of an answer

fn entry(opcode: u8, e: &[u8]) {
    tool_say::text(b": ");
    match opcode {
        // Start, end and UUID.
        op::READ_BY_GROUP_TYPE_RSP => {
            names::carried(after(e, 4));
            number(b", handles ", e, 0);
            number(b" to ", e, 2);
        }
        // Declaration, properties, the handle of the value, UUID.
        op::READ_BY_TYPE_RSP => {
            names::carried(after(e, 5));
            number(b", value at handle ", e, 3);
        }
        // Handle and UUID.
        _ => {
            names::carried(after(e, 2));
            number(b", handle ", e, 0);
        }
    }
}

// The entries, of so many bytes each. A remainder is skipped.
fn entries(opcode: u8, body: &[u8], width: usize) {
    if width == 0 {
        return;
    }
    for e in body.chunks_exact(width) {
        entry(opcode, e);
    }
}

// An answer tells how long its entries are.
fn listing(words: &[u8], s: &[u8], opcode: u8) {
    tool_say::text(words);
    entries(opcode, after(s, ENTRIES_AT), byte(s, BODY_AT) as usize);
}

// Descriptors have UUIDs of 2 bytes, or of 16 (Core Vol 3 Part F 3.4.3.2).
fn descriptors(s: &[u8], opcode: u8) {
    tool_say::text(b"descriptors");
    let width = if byte(s, BODY_AT) == 1 { 4 } else { 18 };
    entries(opcode, after(s, ENTRIES_AT), width);
}

// ---- the rest

fn notified(words: &[u8], s: &[u8]) {
    number(words, s, BODY_AT);
    tool_say::text(b", value");
    tool_say::bytes(after(s, VALUE_AT));
}

fn read(s: &[u8]) {
    let n = after(s, BODY_AT).len();
    tool_say::told(b"a value of ", n as u64, b" bytes");
}

// Kept: a match on opcodes as numbers, since a PDU has any byte there, and crate att_pdu names those that there are.
fn att(s: &[u8], opcode: u8) {
    match opcode {
        op::EXCHANGE_MTU_REQ => number(b"an MTU request, ", s, BODY_AT),
        op::FIND_INFORMATION_REQ => range(b"a request for descriptors", s),
        op::READ_BY_TYPE_REQ => range(b"a request for characteristics", s),
        op::READ_BY_GROUP_TYPE_REQ => range(b"a request for services", s),
        op::READ_REQ => number(b"a read request for handle ", s, BODY_AT),
        op::WRITE_REQ => number(b"a write request for handle ", s, BODY_AT),
        op::WRITE_CMD => number(b"a write command for handle ", s, BODY_AT),
        op::HANDLE_VALUE_CFM => tool_say::text(b"a confirmation"),
        op::ERROR_RSP => error(s),
        op::EXCHANGE_MTU_RSP => number(b"an MTU response, ", s, BODY_AT),
        op::FIND_INFORMATION_RSP => descriptors(s, opcode),
        op::READ_BY_TYPE_RSP => listing(b"characteristics", s, opcode),
        op::READ_BY_GROUP_TYPE_RSP => listing(b"services", s, opcode),
        op::READ_RSP => read(s),
        op::WRITE_RSP => tool_say::text(b"a write response"),
        op::HANDLE_VALUE_NTF => notified(b"a notification on handle ", s),
        op::HANDLE_VALUE_IND => notified(b"an indication on handle ", s),
        _ => tool_say::text(b"an ATT PDU"),
    }
}

pub fn name(s: &[u8]) {
    match bytes_numbers::le16(s, 2) {
        l2cap::cid::ATT => att(s, byte(s, HEADER)),
        l2cap::cid::SIGNALING => tool_say::text(b"a signaling command"),
        l2cap::cid::SMP => tool_say::text(b"a security manager command"),
        _ => tool_say::text(b"a frame of another channel"),
    }
}
