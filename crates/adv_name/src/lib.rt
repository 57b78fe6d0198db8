// The local name in advertising data: Core Supplement Part A 1.2.
#![tactic(auto)]

ghost use Rattle.std.specs.Prelude.{◌≡◌};
ghost use Rattle.bytes_base.specs.Choice.{within};
ghost use Rattle.adv_name.specs.Name.{local_name};

use bytes_bounds::Span;

// The kinds of structure that carry the local name.
const SHORTENED_NAME: u8 = 0x08;

const COMPLETE_NAME: u8 = 0x09;

// Whether a structure of this kind carries the local name.
fn is_name(kind: u8) -> bool
    ensures { result ≡ within 0x08 0x09 kind }
{
    (SHORTENED_NAME..=COMPLETE_NAME).contains(&kind)
}

// Where the local name stands: the body of the first structure that carries one, unless that is no UTF-8.
pub fn ad_local_name(data: &[u8]) -> Option<Span>
    ensures { result ≡ local_name «data».now }
{
    let mut at: usize = 0;
    // Kept: a while, since the step differs from turn to turn; a for would carry the place in a second local.
    while at < data.len() {
        let len = data[at] as usize;
        if len == 0 {
            return None;
        }
        if data.len() - at <= len {
            return None;
        }
        let body = at + adv_data::HEADER;
        let next = at + 1 + len;
        if is_name(data[at + 1]) {
            if utf8::is_utf8(&data[body..next]) {
                return Some(Span {
                    at: body,
                    len: len - 1,
                });
            }
            return None;
        }
        at = next;
    }
    None
}
