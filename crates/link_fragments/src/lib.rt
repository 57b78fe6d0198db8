// Whether a fragment goes unheard, and what a held frame says of itself.
#![tactic(auto)]

ghost use Rattle.std.specs.Prelude.{◌≡◌, ◌+◌, ◌≤◌};
ghost use Rattle.bytes_base.specs.Bytes.{le_at};
ghost use Rattle.state_places.specs.Sizes.{held_at};
ghost use Rattle.link_rules.specs.Fragment.{dropped};

use state::Bearer;

// Where the channel stands, behind the length.
const CHANNEL_AT: usize = state_places::HELD_AT + 2;

// Whether a fragment goes unheard: with no link, and a continuation on nothing.
pub fn is_dropped(b: Bearer, start: bool) -> bool
    ensures { result ≡ dropped b start }
{
    !b.present | (!start & (b.held == 0))
}

pub fn frame_length(store: &[u8]) -> usize
    ensures { result ≡ le_at 2 store.now held_at }
{
    bytes_numbers::le16(store, state_places::HELD_AT) as usize
}

pub fn frame_channel(store: &[u8]) -> u16
    ensures { result ≡ le_at 2 store.now (held_at + 2) }
{
    bytes_numbers::le16(store, CHANNEL_AT)
}
