// What is held of a frame, and when a fragment is refused.
#![tactic(auto)]

ghost use Rattle.std.specs.Prelude.{◌≡◌, List, ℕ, ◌+◌, ◌≤◌, length};
ghost use Rattle.state_places.specs.Sizes.{frame_size};
ghost use Rattle.state_refusals.specs.Refusals.{number, gate_number};
ghost use Rattle.link_rules.specs.Fragment.{with_held, held_before, gathered, whole, held_fits, gate_fragment, refusing};
ghost use Rattle.state_core.specs.Reading.{central, held};

use state::Bearer;
use state_core::Core;
use state_refusals::Refusal;
use time::Micros;

// ---- what is held

// n bytes are held from now on.
pub fn with_held(c: Core, n: usize) -> Core
    ensures { (w : List ℕ) → central result w ≡ with_held (central c w) n }
{
    let mut bearer = c.bearer;
    bearer.held = n;
    let mut o = c;
    o.bearer = bearer;
    o
}

// A start clears what is held.
fn held_before(b: Bearer, start: bool) -> usize
    ensures { result ≡ held_before b start }
{
    if start { 0 } else { b.held }
}

// The bytes of a fragment stand behind those held.
pub fn gather(c: Core, store: &mut [u8], start: bool, fragment: &[u8]) -> Core
    requires { held_before c.bearer start + length fragment.now ≤ frame_size }
    ensures { (w : List ℕ) → held result w store.new ≡ gathered (held c w store.old) start fragment.now }
{
    let bearer = c.bearer;
    let from = held_before(bearer, start);
    let n = fragment.len();
    let place = state_places::HELD_AT + from;
    bytes_copies::copy_in(store, place, fragment, 0, n);
    let total = from + n;
    with_held(c, total)
}

// Whether the frame is there to its end.
pub fn is_whole(c: Core, store: &[u8]) -> bool
    ensures { (w : List ℕ) → result ≡ whole (held c w store.now) }
{
    let bearer = c.bearer;
    let there = bearer.held;
    if there < l2cap::HEADER {
        return false;
    }
    link_fragments::frame_length(store) <= there - l2cap::HEADER
}

// ---- refusals

// Whether what is held stays within its place, for a fragment of n bytes.
fn held_fits(b: Bearer, start: bool, n: usize) -> bool
    ensures { result ≡ held_fits b start n }
{
    if link_fragments::is_dropped(b, start) {
        return true;
    }
    state_refusals::frame_fits(held_before(b, start), n)
}

// In their order: 1, 2, 3, then 5, then 7.
pub fn gate_fragment(
    c: Core,
    tables: &[u64; 1152],
    store_len: usize,
    out_len: usize,
    at: Micros,
    start: bool,
    n: usize,
) -> Result<(), Refusal>
    ensures { gate_number result ≡ gate_fragment (central c tables.now) store_len out_len at start n }
{
    state_fit::gate(c, tables, store_len, out_len, at)?;
    let full = state_counters::is_full(c.counters);
    let fits = held_fits(c.bearer, start, n);
    state_refusals::fragment_refusal(full, fits)
}

// The state that a refusal leaves: 7 alone empties what is held.
pub fn refusing(c: Core, why: Refusal) -> Core
    ensures { (w : List ℕ) → central result w ≡ refusing (central c w) (number why) }
{
    match why {
        Refusal::LongFrame => with_held(c, 0),
        _ => c,
    }
}
