// The search of advertising data for a service: Core Vol 3 Part C 11, Core Supplement Part A 1.1.
#![tactic(auto)]

ghost use Rattle.std.specs.Prelude.{◌≡◌, ◌+◌, ◌≤◌, ◌<◌, length, take, drop, MatchOption};
ghost use Rattle.uuid_value.specs.Value.{num};
ghost use Rattle.bytes_base.specs.Choice.{pick};
ghost use Rattle.adv_data.specs.Ad.{width_of, IsWidth, uuid_of, listed_place};
ghost use Rattle.adv_data.specs.Answers.{incomplete, sought_in};

use bytes_bounds::Span;
use uuid_value::Uuid;

// What data tells of a service: where the body of the first structure stands that lists it; that it is not offered; or neither, since
// a list is incomplete or the data is cut.
// Kept: an enum of three answers, since absent and unknown differ and an Option has one None.
#[derive(Clone, Copy)]
pub enum Sought {
    Listed(Span),
    Absent,
    Unknown,
}

// The kinds of structure that list service UUIDs: an incomplete list and a complete one of each width.
const INCOMPLETE_16: u8 = 0x02;

const COMPLETE_16: u8 = 0x03;

const INCOMPLETE_32: u8 = 0x04;

const COMPLETE_32: u8 = 0x05;

const INCOMPLETE_128: u8 = 0x06;

const COMPLETE_128: u8 = 0x07;

// Bytes of a listed UUID.
const WIDTH_16: usize = 2;

const WIDTH_32: usize = 4;

const WIDTH_128: usize = 16;

// A structure begins with its length and its kind.
pub const HEADER: usize = 2;

// How many bytes each UUID of a structure of this kind has, if it lists any.
// Kept: kinds are numbers, since a kind is a byte that anyone sends, and most of them have no name here.
fn width_of(kind: u8) -> Option<usize>
    ensures { MatchOption result (width_of kind ≡ 0) (λ w. (w ≡ width_of kind) × (0 < w)) }
{
    match kind {
        INCOMPLETE_16 | COMPLETE_16 => Some(WIDTH_16),
        INCOMPLETE_32 | COMPLETE_32 => Some(WIDTH_32),
        INCOMPLETE_128 | COMPLETE_128 => Some(WIDTH_128),
        _ => None,
    }
}

// The UUID of so many bytes at a place.
fn uuid_at(data: &[u8], at: usize, width: usize) -> Uuid
    requires { (at + width ≤ length «data».now) × IsWidth width }
    ensures { num result ≡ uuid_of width (take width (drop at «data».now)) }
{
    match width {
        WIDTH_128 => Uuid::from_128(data, at),
        WIDTH_32 => Uuid::from(bytes_numbers::le32(data, at)),
        _ => Uuid::from(bytes_numbers::le16(data, at)),
    }
}

// What is known behind a list of this kind that does not have the service. Each width has an even kind for an incomplete list.
fn passed(kind: u8, before: Sought) -> Sought
    requires { 0 < width_of kind }
    ensures { result ≡ pick (incomplete kind) Sought.Unknown before }
{
    if kind % 2 == 0 {
        return Sought::Unknown;
    }
    before
}

// What the data tells of the service.
pub fn seek(data: &[u8], uuid: Uuid) -> Sought
    ensures { result ≡ sought_in (num uuid) «data».now }
{
    let mut answer = Sought::Absent;
    let mut at: usize = 0;
    // Kept: a while, since the step differs from turn to turn; a for would carry the place in a second local.
    'structures: while at < data.len() {
        let len = data[at] as usize;
        if len == 0 {
            break;
        }
        if data.len() - at <= len {
            answer = Sought::Unknown;
            break;
        }
        let body = at + HEADER;
        let next = at + 1 + len;
        let kind = data[at + 1];
        if let Some(width) = width_of(kind) {
            answer = passed(kind, answer);
            let mut i = body;
            // Kept: the place of a UUID is counted, since the label leaves both loops from here.
            while width <= next - i {
                if uuid_at(data, i, width) == uuid {
                    answer = Sought::Listed(Span {
                        at: body,
                        len: len - 1,
                    });
                    break 'structures;
                }
                i += width;
            }
        }
        at = next;
    }
    answer
}

// Where the body of the first structure stands that lists the service.
pub fn search(data: &[u8], uuid: Uuid) -> Option<Span>
    ensures { result ≡ listed_place (num uuid) «data».now }
{
    match seek(data, uuid) {
        Sought::Listed(body) => Some(body),
        Sought::Absent | Sought::Unknown => None,
    }
}
