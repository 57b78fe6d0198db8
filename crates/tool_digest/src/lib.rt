// One number of a whole state in numbers or of lent bytes, for programs that test whether a call left them as they were. What
// differs in one half of a field or of a word alone has another number.
#![tactic(auto)]

mod spans;
mod steps;

use state::{Bearer, Counters, Counts, Running};
use state_core::Core;

// The least prime above 2^32: both halves of a field count in full.
const PRIME: u64 = 4_294_967_311;

const FACTOR: u64 = 1_000_003;

// 2^32.
const HALF: u64 = 4_294_967_296;

fn join(h: u64, half: u64) -> u64 {
    ((h % PRIME) * FACTOR + half % HALF) % PRIME
}

// The number h with one more field x.
pub fn more(h: u64, x: u64) -> u64 {
    join(join(h, x / HALF), x)
}

pub fn more_of_flag(h: u64, x: bool) -> u64 {
    more(h, u64::from(x))
}

fn of_counts(h: u64, n: Counts) -> u64 {
    spans::of(
        h,
        &[
            n.waiting as u64,
            n.results as u64,
            n.services as u64,
            n.characteristics as u64,
            n.notifications as u64,
        ],
    )
}

fn of_counters(h: u64, k: Counters) -> u64 {
    spans::of(
        h,
        &[
            u64::from(k.next_index),
            k.refused_steps,
            k.notified,
            k.wait_from,
            k.links,
        ],
    )
}

fn of_bearer(h: u64, b: Bearer) -> u64 {
    let link = b.link;
    spans::of(
        h,
        &[
            b.held as u64,
            u64::from(link.handle),
            u64::from(link.mtu),
            u64::from(link.pending),
            u64::from(link.terminating),
            u64::from(b.present),
            u64::from(b.closed),
        ],
    )
}

fn of_running(h: u64, r: Running) -> u64 {
    spans::of(
        steps::of_step(more(h, r.deadline.0), r.step),
        &[
            u64::from(r.index),
            u64::from(r.cursor),
            u64::from(r.len),
            u64::from(r.phase),
            u64::from(r.active),
            u64::from(r.dated),
        ],
    )
}

fn of_core(h: u64, c: Core) -> u64 {
    let a = of_counters(of_counts(h, c.counts), c.counters);
    spans::of(
        of_running(of_bearer(a, c.bearer), c.running),
        &[
            c.reports as u64,
            c.key_count as u64,
            u64::from(c.options.strict),
        ],
    )
}

// Of every field of the core and every word of the tables, dead places and spare bits too.
pub fn of_state(c: Core, tables: &[u64]) -> u64 {
    spans::of(of_core(1, c), tables)
}

// Of lent bytes.
pub fn of_lent(s: &[u8]) -> u64 {
    spans::of(1, s)
}
