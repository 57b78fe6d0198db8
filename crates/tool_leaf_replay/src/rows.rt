// One row of the recorded list: a kind, the input's length in two bytes, the input, the answer's length in one byte, the Rust's
// answer. oracle/record has the kinds and says how the list was made.
use uuid_value::Uuid;

// Kept: numbers and no enum, since they are bytes of the list, and an unknown one is told only of a row that is whole.
pub const PARSE: u8 = 1;

pub const FROM_ATT: u8 = 2;

pub const TO_ATT: u8 = 3;

pub const SEARCH: u8 = 4;

pub const NAME: u8 = 5;

pub const PARAMS: u8 = 6;

// The bytes of a row beside its input and its answer.
const FRAME: usize = 4;

const UUID_LEN: usize = 16;

// A whole row: its kind, whether the port answers as the Rust did, and where the next row begins.
#[derive(Clone, Copy)]
pub struct Row {
    pub kind: u8,
    pub alike: bool,
    pub next: usize,
}

// No bytes for no UUID, else its 16 bytes, the least significant first.
fn same_uuid(read: Option<Uuid>, answer: &[u8]) -> bool {
    match read {
        Some(u) => {
            if answer.len() != UUID_LEN {
                return false;
            }
            (bytes_numbers::le64(answer, 0) == u.low) & (bytes_numbers::le64(answer, 8) == u.high)
        }
        None => answer.len() == 0,
    }
}

// One byte, 1 for yes and 0 for no.
fn same_flag(is: bool, answer: &[u8]) -> bool {
    if answer.len() != 1 {
        return false;
    }
    if is { answer[0] == 1 } else { answer[0] == 0 }
}

fn uuid_of(bytes: &[u8]) -> Uuid {
    Uuid {
        low: bytes_numbers::le64(bytes, 0),
        high: bytes_numbers::le64(bytes, 8),
    }
}

fn same_start(bytes: &[u8], n: usize, answer: &[u8]) -> bool {
    if bytes.len() < n {
        return false;
    }
    check::same(&bytes[0..n], answer)
}

fn to_att_row(input: &[u8], answer: &[u8]) -> bool {
    let att = uuid_of(input).to_att();
    let bytes = att.bytes;
    same_start(&bytes, att.len, answer)
}

// The UUID's 16 bytes stand before the data.
fn search_row(input: &[u8], answer: &[u8]) -> bool {
    if input.len() < UUID_LEN {
        return false;
    }
    same_flag(
        adv_listing::ad_lists_service(&input[UUID_LEN..], uuid_of(input)),
        answer,
    )
}

// 0 for no name; 1, and the name after it.
fn name_row(input: &[u8], answer: &[u8]) -> bool {
    match adv_name::ad_local_name(input) {
        Some(name) => {
            if answer.len() == 0 {
                return false;
            }
            if answer[0] != 1 {
                return false;
            }
            if input.len() < name.len {
                return false;
            }
            if input.len() - name.len < name.at {
                return false;
            }
            let end = name.at + name.len;
            check::same(&input[name.at..end], &answer[1..])
        }
        None => same_flag(false, answer),
    }
}

fn params_row(input: &[u8], answer: &[u8]) -> bool {
    let min = bytes_numbers::le16(input, 0);
    let max = bytes_numbers::le16(input, 2);
    let latency = bytes_numbers::le16(input, 4);
    let timeout = bytes_numbers::le16(input, 6);
    same_flag(
        l2cap_params::params_good(min, max, latency, timeout),
        answer,
    )
}

// Whether the port gives the answer; of an unknown kind it does not.
fn alike(kind: u8, input: &[u8], answer: &[u8]) -> bool {
    match kind {
        PARSE => same_uuid(uuid_text::parse(input), answer),
        FROM_ATT => same_uuid(Uuid::from_att(input), answer),
        TO_ATT => to_att_row(input, answer),
        SEARCH => search_row(input, answer),
        NAME => name_row(input, answer),
        PARAMS => params_row(input, answer),
        _ => false,
    }
}

fn wide(b: u8) -> usize {
    b as usize
}

// The row at a place, or none where it is cut.
pub fn read_row(s: &[u8], at: usize) -> Option<Row> {
    if s.len() < at {
        return None;
    }
    let left = s.len() - at;
    if left < FRAME {
        return None;
    }
    let kind = s[at];
    let n = bytes_numbers::le16(s, at + 1) as usize;
    if left - FRAME < n {
        return None;
    }
    let input = at + 3;
    let middle = input + n;
    let m = wide(s[middle]);
    if left - FRAME - n < m {
        return None;
    }
    let answer = middle + 1;
    let next = answer + m;
    Some(Row {
        kind,
        alike: alike(kind, &s[input..middle], &s[answer..next]),
        next,
    })
}
