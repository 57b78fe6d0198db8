// on_timer, on_connected and on_disconnected.
#![tactic(auto)]

ghost use Rattle.std.specs.Prelude.{◌≡◌, List, ℕ, ◌≤◌, ◌<◌, length};
ghost use Rattle.state_places.specs.Sizes.{store_size, most_results};
ghost use Rattle.time.specs.Clock.{latest};
ghost use Rattle.state_refusals.specs.Refusals.{gate_number, told_number};
ghost use Rattle.script_rules.specs.Timeouts.{timed_out};
ghost use Rattle.script_rules.specs.Comings.{given_up, greeted, link_counted, goes_on, cut_status, expire, connect, cut_off, lose};
ghost use Rattle.script_rules.specs.World.{on_held};
ghost use Rattle.script_rules.specs.Sound.{Sound, Whole};
ghost use Rattle.script_rules.specs.Events.{on_timer, gate_connected, on_connected, on_disconnected};
ghost use Rattle.state_counters.specs.Counters.{most_links};
ghost use Rattle.state_core.specs.Reading.{central, held, world};
ghost use Rattle.central_answers.specs.Answers.{outcome, quiet, Leaves};

use central_answers::{Answer, UNSENT};
use state::{Counters, Sent, Step, StepStatus};
use state_core::{Core, Turn};
use state_refusals::Refusal;
use time::Micros;

// ---- the timer

// How a step that is due ends.
fn timed_out(step: Step) -> StepStatus
    ensures { result ≡ timed_out step }
{
    if state_kinds::is_kind(step, state_kinds::SCAN)
        | state_kinds::is_kind(step, state_kinds::WAIT)
    {
        return StepStatus::Ok;
    }
    StepStatus::Timeout
}

// The turn of a step that its deadline ends, before its end clears what it awaits.
fn give_up(t: Turn) -> Turn
    ensures { (w s o : List ℕ) → world result w s o ≡ on_held (world t w s o) (given_up (held t.core w s)) }
{
    let mut core = t.core;
    let sent = t.sent;
    let options = core.options;
    let running = core.running;
    let bearer = core.bearer;
    core.bearer = script_timeouts::closing(options, running, bearer);
    Turn { core, sent }
}

// The running step ends, if its deadline is now or before.
fn expire(t: Turn, tables: &mut [u64; 1152], store: &mut [u8], out: &mut [u8], at: Micros) -> Turn
    requires { Sound 65 (world t tables.old store.old out.old) × (at.0 ≤ latest) }
    ensures { world result tables.new store.new out.new ≡ expire (world t tables.old store.old out.old) at }
{
    let core = t.core;
    let running = core.running;
    if script_timeouts::is_due(running, at) {
        let step = running.step;
        let late = give_up(t);
        let u = script_turns::end_turn(late, tables, store, at, timed_out(step));
        return script_run::advance(u, tables, store, out, at);
    }
    t
}

// The running step ends, if its deadline is now or before.
pub fn on_timer(
    core: Core,
    tables: &mut [u64; 1152],
    store: &mut [u8],
    out: &mut [u8],
    at: Micros,
) -> Answer<Core, Sent>
    ensures out_after { outcome result tables.new store.new out.new ≡ on_timer (central core tables.old) store.old out.old at }
    ensures refused { Leaves (told_number result.refusal) core result.state tables.old tables.new store.old store.new × ((told_number result.refusal ≡ 0 → ⊥) → out.new ≡ out.old) }
{
    if let Err(why) = state_fit::gate(core, tables, store.len(), out.len(), at) {
        return central_answers::refuse(core, why, UNSENT);
    }
    let begun = central_answers::begin(core);
    let ended = expire(begun, tables, store, out, at);
    central_answers::done(ended.core, ended.sent)
}

// ---- a link comes

// A running Connect is done.
fn greet(c: Core, tables: &mut [u64; 1152], store: &mut [u8], at: Micros) -> Core
    requires { (length store.old ≡ store_size) × (c.counts.results ≤ most_results) }
    ensures { held result tables.new store.new ≡ greeted (held c tables.old store.old) at }
{
    let running = c.running;
    let step = running.step;
    if state_kinds::is_kind(step, state_kinds::CONNECT) {
        return script_turns::end(c, tables, store, at, StepStatus::Ok);
    }
    c
}

// One link more is counted.
fn count_link(k: Counters) -> Counters
    requires { k.links < most_links }
    ensures { result ≡ link_counted k }
{
    let mut o = k;
    o.links = k.links + 1;
    o
}

fn connect(
    t: Turn,
    tables: &mut [u64; 1152],
    store: &mut [u8],
    out: &mut [u8],
    handle: u16,
    at: Micros,
) -> Turn
    requires { Sound 65 (world t tables.old store.old out.old) × (at.0 ≤ latest) × (t.core.counters.links < most_links) }
    ensures { world result tables.new store.new out.new ≡ connect (world t tables.old store.old out.old) handle at }
{
    let mut core = t.core;
    let sent = t.sent;
    let was = core.bearer;
    let mut bearer = link_record::opened(was, handle);
    bearer.held = 0;
    bearer.present = true;
    bearer.closed = false;
    core.bearer = bearer;
    let counters = core.counters;
    core.counters = count_link(counters);
    let next = greet(core, tables, store, at);
    let u = Turn { core: next, sent };
    script_run::advance(u, tables, store, out, at)
}

// Refusals 1 to 3, then 5: no more links can be counted.
fn gate_connected(
    c: Core,
    tables: &[u64; 1152],
    store_len: usize,
    out_len: usize,
    at: Micros,
) -> Result<(), Refusal>
    ensures { gate_number result ≡ gate_connected (central c tables.now) store_len out_len at }
{
    state_fit::gate(c, tables, store_len, out_len, at)?;
    if state_counters::links_full(c.counters) {
        return Err(Refusal::CounterFull);
    }
    Ok(())
}

// There is a new link, by this handle.
pub fn on_connected(
    core: Core,
    tables: &mut [u64; 1152],
    store: &mut [u8],
    out: &mut [u8],
    handle: u16,
    at: Micros,
) -> Answer<Core, Sent>
    ensures out_after { outcome result tables.new store.new out.new ≡ on_connected (central core tables.old) store.old out.old handle at }
    ensures refused { Leaves (told_number result.refusal) core result.state tables.old tables.new store.old store.new × ((told_number result.refusal ≡ 0 → ⊥) → out.new ≡ out.old) }
{
    if let Err(why) = gate_connected(core, tables, store.len(), out.len(), at) {
        return central_answers::refuse(core, why, UNSENT);
    }
    let t = connect(central_answers::begin(core), tables, store, out, handle, at);
    central_answers::done(t.core, t.sent)
}

// ---- a link goes

// Whether a step needs no link.
fn goes_on(step: Step) -> bool
    ensures { result ≡ goes_on step }
{
    state_kinds::is_kind(step, state_kinds::SCAN)
        | (state_kinds::is_kind(step, state_kinds::CONNECT)
            | state_kinds::is_kind(step, state_kinds::WAIT))
}

// How a step that needs a link ends without one.
fn cut_status(step: Step) -> StepStatus
    ensures { result ≡ cut_status step }
{
    if state_kinds::is_kind(step, state_kinds::DISCONNECT) {
        return StepStatus::Ok;
    }
    StepStatus::Disconnected
}

// A running step that needs a link ends.
fn cut_off(c: Core, tables: &mut [u64; 1152], store: &mut [u8], at: Micros) -> Core
    requires { (length store.old ≡ store_size) × (c.counts.results ≤ most_results) }
    ensures { held result tables.new store.new ≡ cut_off (held c tables.old store.old) at c.running.step }
{
    let running = c.running;
    let step = running.step;
    if goes_on(step) {
        return c;
    }
    script_turns::end(c, tables, store, at, cut_status(step))
}

fn lose(c: Core, tables: &mut [u64; 1152], store: &mut [u8], at: Micros) -> Core
    requires { Whole (held c tables.old store.old) × (at.0 ≤ latest) }
    ensures { held result tables.new store.new ≡ lose (held c tables.old store.old) at }
{
    let mut bearer = c.bearer;
    bearer.present = false;
    let mut unlinked = c;
    unlinked.bearer = bearer;
    let cut = cut_off(unlinked, tables, store, at);
    script_run::advance_unlinked(cut, tables, store, at)
}

// There is no link any more.
pub fn on_disconnected(
    core: Core,
    tables: &mut [u64; 1152],
    store: &mut [u8],
    at: Micros,
) -> Answer<Core, ()>
    ensures store_after { quiet result tables.new store.new ≡ on_disconnected (central core tables.old) store.old at }
    ensures refused { Leaves (told_number result.refusal) core result.state tables.old tables.new store.old store.new }
{
    if let Err(why) = state_fit::gate_quiet(core, tables, store.len(), at) {
        return central_answers::refuse(core, why, ());
    }
    let left = lose(core, tables, store, at);
    central_answers::done(left, ())
}
