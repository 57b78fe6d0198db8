// The script goes on: while no step runs and some wait, the first of them begins.
#![tactic(auto)]

ghost use Rattle.std.specs.Prelude.{◌≡◌, true, List, ℕ, ◌≤◌};
ghost use Rattle.time.specs.Clock.{latest};
ghost use Rattle.script_rules.specs.Sound.{Sound, Whole};
ghost use Rattle.script_rules.specs.Script.{can_go, step_once, advance};
ghost use Rattle.script_rules.specs.Unlinked.{step_unlinked, advance_unlinked};
ghost use Rattle.state_core.specs.Reading.{central, held, world};

use state_core::{Core, Turn};
use time::Micros;

// Whether a step is to begin.
fn can_go(c: Core) -> bool
    ensures { (w : List ℕ) → result ≡ can_go (central c w) }
{
    !c.running.active & (0 < c.counts.waiting)
}

// ---- with a link or without

// The first waiting step begins.
fn step_once(
    t: Turn,
    tables: &mut [u64; 1152],
    store: &mut [u8],
    out: &mut [u8],
    at: Micros,
) -> Turn
    requires { Sound 65 (world t tables.old store.old out.old) × (can_go (central t.core tables.old) ≡ true) }
    ensures { world result tables.new store.new out.new ≡ step_once (world t tables.old store.old out.old) at }
{
    let waiting = t.core;
    let sent = t.sent;
    let core = script_queue::take_step(waiting, tables, store);
    let u = Turn { core, sent };
    script_starts::start(u, tables, store, out, at)
}

// Steps begin, one after another, until one runs or none waits.
pub fn advance(
    t: Turn,
    tables: &mut [u64; 1152],
    store: &mut [u8],
    out: &mut [u8],
    at: Micros,
) -> Turn
    requires { Sound 65 (world t tables.old store.old out.old) × (at.0 ≤ latest) }
    ensures { world result tables.new store.new out.new ≡ advance (world t tables.old store.old out.old) at }
{
    let mut u = t;
    // Kept: a while, since how many steps begin shows only as each of them begins.
    while can_go(u.core) {
        u = step_once(u, tables, store, out, at);
    }
    u
}

// ---- with no link, where nothing can go out

fn step_unlinked(c: Core, tables: &mut [u64; 1152], store: &mut [u8], at: Micros) -> Core
    requires { Whole (held c tables.old store.old) × (can_go (central c tables.old) ≡ true) }
    ensures { held result tables.new store.new ≡ step_unlinked (held c tables.old store.old) at }
{
    let d = script_queue::take_step(c, tables, store);
    script_starts::start_unlinked(d, tables, store, at)
}

pub fn advance_unlinked(c: Core, tables: &mut [u64; 1152], store: &mut [u8], at: Micros) -> Core
    requires { Whole (held c tables.old store.old) × (at.0 ≤ latest) }
    ensures { held result tables.new store.new ≡ advance_unlinked (held c tables.old store.old) at }
{
    let mut d = c;
    // Kept: a while, as in `advance`.
    while can_go(d) {
        d = step_unlinked(d, tables, store, at);
    }
    d
}
