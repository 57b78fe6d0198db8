// Advertising data taken apart, structure by structure.
ghost use Rattle.std.specs.Prelude.{◌<◌, ◌≤◌, MatchOption, ⊤};

use uuid_value::Uuid;

// Bytes of each UUID that a structure of the kind lists, if it lists any (Core Supplement Part A 1.1).
fn width_of(kind: u8) -> Option<usize>
    ensures { MatchOption result ⊤ (λ w. (0 < w) × (w ≤ 16)) }
{
    match kind {
        0x02 | 0x03 => Some(2),
        0x04 | 0x05 => Some(4),
        0x06 | 0x07 => Some(16),
        _ => None,
    }
}

// Each width has a kind for a list that is incomplete, and after it one for a complete list.
fn tell_list(kind: u8, width: usize)
    requires { width ≤ 16 }
{
    if kind % 2 == 0 {
        tool_say::text(b"in");
    }
    tool_say::told(b"complete list of ", 8 * (width as u64), b"-bit services,");
}

// Kept: kinds are numbers, since the demo shows bytes as they stand in the data.
fn tell_other(kind: u8) {
    match kind {
        0x01 => tool_say::text(b"flags,"),
        0x08 => tool_say::text(b"shortened local name,"),
        0x09 => tool_say::text(b"complete local name,"),
        _ => tool_say::told(b"kind ", kind as u64, b","),
    }
}

// What a structure of this kind is called.
fn tell_kind(kind: u8) {
    match width_of(kind) {
        Some(width) => tell_list(kind, width),
        None => tell_other(kind),
    }
}

fn uuid_of(entry: &[u8]) -> Option<Uuid> {
    if entry.len() == 4 {
        return Some(Uuid::from(bytes_numbers::le32(entry, 0)));
    }
    Uuid::from_att(entry)
}

fn tell_uuid(entry: &[u8]) {
    tool_say::text(b"            service ");
    if let Some(u) = uuid_of(entry) {
        tool_say::uuid(u);
    }
    tool_say::line(b"");
}

// A structure's kind and body, and the UUIDs that it lists. A remainder is skipped.
fn tell_one(at: usize, kind: u8, body: &[u8]) {
    tool_say::told(b"    byte ", at as u64, b": ");
    tell_kind(kind);
    tool_say::bytes(body);
    tool_say::line(b"");
    if let Some(width) = width_of(kind) {
        for entry in body.chunks_exact(width) {
            tell_uuid(entry);
        }
    }
}

fn tell_end() {
    tool_say::line(b"    a length of zero ends the data");
}

fn tell_overrun(at: usize) {
    tool_say::told(
        b"    byte ",
        at as u64,
        b": the length runs past the end, so the reading stops here\n",
    );
}

fn tell_all(data: &[u8]) {
    let mut at: usize = 0;
    // Kept: a while, since the step differs from turn to turn; a for would carry the place in a second local.
    while at < data.len() {
        let len = data[at] as usize;
        if len == 0 {
            tell_end();
            return;
        }
        if data.len() - at <= len {
            tell_overrun(at);
            return;
        }
        let body = at + 2;
        let next = at + 1 + len;
        tell_one(at, data[at + 1], &data[body..next]);
        at = next;
    }
}

pub fn tell(what: &[u8], data: &[u8]) {
    tool_say::told(what, data.len() as u64, b" bytes:\n");
    tell_all(data);
}
