// The counters: what a fit state has in them, and when no more can be counted.
#![tactic(auto)]

ghost use Rattle.std.specs.Prelude.{◌≡◌, ◌+◌, eqb, leb};
ghost use Rattle.state_counters.specs.Counters.{most_notified, most_links, last_index, counters_fit};

use state::{Counters, Counts};

// 2^62: no batch is accepted where so many steps were refused, no fragment where so many notifications came in, no link where so many
// were counted.
pub const COUNTER_END: u64 = 4_611_686_018_427_387_904;

// A batch may be refused below the end, to its last step.
const MAX_REFUSED: u64 = COUNTER_END + 64;

pub const LAST_INDEX: usize = 4_294_967_295;

// Whether each of the waiting steps can still have an index.
fn index_fits(next: u32, waiting: usize) -> bool
    ensures { result ≡ leb (next + waiting) last_index }
{
    waiting <= LAST_INDEX && next as usize + waiting <= LAST_INDEX
}

#[tactic(auto, unfolding(crate::specs::Counters::counters_fit))]
pub fn counters_fit(k: Counters, n: Counts) -> bool
    ensures { result ≡ counters_fit k n }
{
    (n.notifications as u64 <= k.notified)
        & (k.notified <= COUNTER_END)
        & (k.wait_from <= k.notified)
        & (k.refused_steps <= MAX_REFUSED)
        & index_fits(k.next_index, n.waiting)
        & (k.links <= COUNTER_END)
}

// Whether no notification can be counted any more.
pub fn is_full(k: Counters) -> bool
    ensures { result ≡ eqb k.notified most_notified }
{
    k.notified == COUNTER_END
}

// Whether no link can be counted any more.
pub fn links_full(k: Counters) -> bool
    ensures { result ≡ eqb k.links most_links }
{
    k.links == COUNTER_END
}
