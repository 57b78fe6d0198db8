// What an answer says by itself: whether it counts, the MTU of both sides, where its entries stand and how long they are.
#![tactic(auto)]

ghost use Rattle.std.specs.Prelude.{◌≡◌, ◌+◌, ◌-◌, ◌≤◌, length};
ghost use Rattle.lists.specs.Blocks.{bytes};
ghost use Rattle.link_rules.specs.Payload.{payload_at, payload_size};
ghost use Rattle.link_rules.specs.Answers.{counts, smaller_mtu, width_of};

// The entries of an answer stand behind its opcode and one byte more.
pub const ENTRIES_AT: usize = link_payload::PAYLOAD_AT + 2;

// The formats of an answer that names descriptors.
const SHORT_TYPES: u8 = 1;

const LONG_TYPES: u8 = 2;

// It is the response to what is awaited, or an error that names it.
pub fn counts(pending: u8, store: &[u8], n: usize) -> bool
    requires { payload_at + n ≤ length store.now }
    ensures { result ≡ counts pending (bytes store.now payload_at n) }
{
    if pending == 0 {
        return false;
    }
    let op = link_payload::byte(store, n, 0);
    if op == att_pdu::op::ERROR_RSP {
        let named = link_payload::byte(store, n, 1);
        return named == pending;
    }
    let awaited = pending as usize + 1;
    op as usize == awaited
}

// The smaller of both MTUs, neither below 23.
pub fn smaller_mtu(server: u16, ours: u16) -> u16
    ensures { result ≡ smaller_mtu server ours }
{
    server
        .max(att_pdu::DEFAULT_MTU)
        .min(ours.max(att_pdu::DEFAULT_MTU))
}

// Where the entries of an answer of n bytes end.
pub fn entries_end(n: usize) -> usize
    requires { n ≤ payload_size }
    ensures { result ≡ payload_at + 2 + (n - 2) }
{
    if n < 2 {
        return ENTRIES_AT;
    }
    link_payload::PAYLOAD_AT + n
}

// The size of an entry by the answer's format.
pub fn width_of(format: u8) -> usize
    ensures { result ≡ width_of format }
{
    if format == SHORT_TYPES {
        return 4;
    }
    if format == LONG_TYPES {
        return 18;
    }
    0
}
