// A UUID from its text.
#![tactic(auto)]

ghost use Rattle.std.specs.Prelude.{◌≡◌, ◌≤◌, length};
ghost use Rattle.uuid_text.specs.Text.{unsigned, short_uuid, long_uuid, parse_uuid};
ghost use Rattle.uuid_text.specs.Parts.{digit_in, number_in, Stripped};

use uuid_value::Uuid;

const HYPHEN: u8 = b'-';

const PLUS: u8 = b'+';

// Digits of a 16-bit UUID, of a byte, and of a whole UUID, and the bytes of its text with hyphens.
const SHORT_DIGITS: usize = 4;

const BYTE_DIGITS: usize = 2;

const LONG_DIGITS: usize = 32;

const LONG_TEXT: usize = 36;

const LONG_LEN: usize = 16;

// The top byte of half a UUID stands at this place.
const TOP_BYTE: u64 = 0x100_0000_0000_0000;

// The text without hyphens: the first len of hex.
// Kept: a length beside its bytes, since the text is put together here and the library uses no heap.
#[derive(Clone, Copy)]
struct Digits {
    len: usize,
    hex: [u8; 32],
}

// The UUID that text is: hyphens are dropped, and 4 digits are left, or 32 of 36 bytes.
pub fn parse(text: &[u8]) -> Option<Uuid>
    ensures { result ≡ parse_uuid text.now }
{
    let Digits { len, hex } = plain(text)?;
    if len == SHORT_DIGITS {
        return short(&hex[..SHORT_DIGITS]);
    }
    if len == LONG_DIGITS && text.len() == LONG_TEXT {
        return long(&hex);
    }
    None
}

// The text without hyphens, or none where it has more digits than any UUID.
fn plain(text: &[u8]) -> Option<Digits>
    ensures { Stripped text.now result }
{
    let mut hex = [0; LONG_DIGITS];
    let mut len = 0;
    for &b in text {
        if b != HYPHEN {
            if len == LONG_DIGITS {
                return None;
            }
            hex[len] = b;
            len += 1;
        }
    }
    Some(Digits { len, hex })
}

// The UUID of 4 digits.
fn short(hex: &[u8]) -> Option<Uuid>
    requires { length hex.now ≡ 4 }
    ensures { result ≡ short_uuid hex.now }
{
    let v = number(hex)?;
    Some(Uuid::from(v))
}

// The UUID of 32 digits.
fn long(hex: &[u8]) -> Option<Uuid>
    requires { length hex.now ≡ 32 }
    ensures { result ≡ long_uuid hex.now }
{
    let mut low: u64 = 0;
    let mut high: u64 = 0;
    for i in 0..LONG_LEN {
        let at = BYTE_DIGITS * i;
        let v = number(&hex[at..at + BYTE_DIGITS])?;
        high = 256 * high + low / TOP_BYTE;
        low = 256 * (low % TOP_BYTE) + v as u64;
    }
    Some(Uuid { low, high })
}

// The number that 2 to 4 bytes are, of which the first may be a plus.
fn number(text: &[u8]) -> Option<u16>
    requires { (2 ≤ length text.now) × (length text.now ≤ 4) }
    ensures { result ≡ number_in text.now }
{
    let digits = unsigned(text);
    let mut v = 0;
    for &b in digits {
        let d = digit(b)?;
        v = 16 * v + d;
    }
    Some(v)
}

// Bytes without a plus in front.
fn unsigned(text: &[u8]) -> &[u8]
    ensures { result.now ≡ unsigned text.now }
{
    match text {
        [PLUS, digits @ ..] => digits,
        _ => text,
    }
}

// The value of a hex digit.
fn digit(b: u8) -> Option<u16>
    ensures { result ≡ digit_in b }
{
    match b {
        b'0'..=b'9' => Some((b - b'0') as u16),
        b'A'..=b'F' => Some((b - b'A' + 10) as u16),
        b'a'..=b'f' => Some((b - b'a' + 10) as u16),
        _ => None,
    }
}
