// Well-formed UTF-8: the Unicode Standard, Table 3-7.
#![tactic(auto)]

ghost use Rattle.std.specs.Prelude.{◌≡◌, [], ◌∷◌, ◌<◌, Some, None, length, drop, get_or, eqb};
ghost use Rattle.bytes_base.specs.Choice.{pick};
ghost use Rattle.utf8.specs.Utf8.{twos, threes, fours, some, sequence, utf8};

// Stands for a byte past the end: no sequence has it.
// Kept: a number and no Option, since each row of the table is then one test of its bytes, the end of the text among them.
const NO_BYTE: u16 = 256;

// The last byte that is a sequence by itself, and the bytes that go on with a longer one.
const LAST_SINGLE: u16 = 0x7F;

const TAIL_FIRST: u16 = 0x80;

const TAIL_LAST: u16 = 0xBF;

// The byte at a place.
fn byte_or_none(s: &[u8], at: usize) -> u16
    ensures { result ≡ get_or s.now at 256 }
{
    if at < s.len() { s[at] as u16 } else { NO_BYTE }
}

// The row of two bytes.
fn is_two(a: u16, b: u16) -> bool
    ensures { result ≡ some twos (a ∷ b ∷ []) }
{
    (0xC2 <= a) & (a <= 0xDF) & (TAIL_FIRST <= b) & (b <= TAIL_LAST)
}

// The rows of three bytes: no overlong form after E0, no surrogate after ED.
fn is_three(a: u16, b: u16, c: u16) -> bool
    ensures { result ≡ some threes (a ∷ b ∷ c ∷ []) }
{
    let tb = (TAIL_FIRST <= b) & (b <= TAIL_LAST);
    let tc = (TAIL_FIRST <= c) & (c <= TAIL_LAST);
    let overlong = (0xE0 <= a) & (a <= 0xE0) & (0xA0 <= b) & (b <= TAIL_LAST) & tc;
    let low = (0xE1 <= a) & (a <= 0xEC) & tb & tc;
    let surrogate = (0xED <= a) & (a <= 0xED) & (TAIL_FIRST <= b) & (b <= 0x9F) & tc;
    let high = (0xEE <= a) & (a <= 0xEF) & tb & tc;
    overlong | low | surrogate | high
}

// The rows of four bytes: no overlong form after F0, nothing above 10FFFF after F4.
fn is_four(a: u16, b: u16, c: u16, d: u16) -> bool
    ensures { result ≡ some fours (a ∷ b ∷ c ∷ d ∷ []) }
{
    let tb = (TAIL_FIRST <= b) & (b <= TAIL_LAST);
    let tc = (TAIL_FIRST <= c) & (c <= TAIL_LAST);
    let td = (TAIL_FIRST <= d) & (d <= TAIL_LAST);
    let overlong = (0xF0 <= a) & (a <= 0xF0) & (0x90 <= b) & (b <= TAIL_LAST) & tc & td;
    let middle = (0xF1 <= a) & (a <= 0xF3) & tb & tc & td;
    let last = (0xF4 <= a) & (a <= 0xF4) & (TAIL_FIRST <= b) & (b <= 0x8F) & tc & td;
    overlong | middle | last
}

// How many bytes the well-formed sequence at a place has, or none.
fn sequence_len(s: &[u8], at: usize) -> Option<usize>
    requires { at < length s.now }
    ensures { result ≡ pick (eqb (sequence (drop at s.now)) 0) None (Some (sequence (drop at s.now))) }
{
    let a = byte_or_none(s, at);
    if a <= LAST_SINGLE {
        return Some(1);
    }
    let b = byte_or_none(s, at + 1);
    let c = byte_or_none(s, at + 2);
    let d = byte_or_none(s, at + 3);
    if is_two(a, b) {
        return Some(2);
    }
    if is_three(a, b, c) {
        return Some(3);
    }
    if is_four(a, b, c, d) {
        return Some(4);
    }
    None
}

// Whether bytes are well-formed UTF-8.
pub fn is_utf8(s: &[u8]) -> bool
    ensures { result ≡ utf8 s.now }
{
    let mut at: usize = 0;
    // Kept: a while, since the step is the length of the sequence and differs from turn to turn.
    while at < s.len() {
        match sequence_len(s, at) {
            Some(n) => at += n,
            None => return false,
        }
    }
    true
}
