// The frame that is held, once it is whole: its payload is read where it stands.
#![tactic(auto)]

ghost use Rattle.std.specs.Prelude.{◌≡◌, ◌+◌, ◌≤◌, length, get_or};
ghost use Rattle.bytes_base.specs.Bytes.{le_at};
ghost use Rattle.lists.specs.Blocks.{bytes};
ghost use Rattle.link_rules.specs.Payload.{payload_at};

// Behind the length and the channel.
pub const PAYLOAD_AT: usize = state_places::HELD_AT + 4;

// The byte at a place, or 0.
fn byte_of(p: &[u8], i: usize) -> u8
    ensures { result ≡ get_or p.now i 0 }
{
    if i < p.len() { p[i] } else { 0 }
}

// Byte i of a payload of n bytes, or 0.
pub fn byte(store: &[u8], n: usize, i: usize) -> u8
    requires { payload_at + n ≤ length store.now }
    ensures { result ≡ get_or (bytes store.now payload_at n) i 0 }
{
    let end = PAYLOAD_AT + n;
    byte_of(&store[PAYLOAD_AT..end], i)
}

// The two bytes from byte i on, as a number.
pub fn number(store: &[u8], n: usize, i: usize) -> u16
    requires { payload_at + n ≤ length store.now }
    ensures { result ≡ le_at 2 (bytes store.now payload_at n) i }
{
    let end = PAYLOAD_AT + n;
    bytes_numbers::le16(&store[PAYLOAD_AT..end], i)
}
