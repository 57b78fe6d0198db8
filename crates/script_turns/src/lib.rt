// What every call of the script is made of: a step ends, a step runs for its milliseconds, a request goes out.
#![tactic(auto)]

ghost use Rattle.std.specs.Prelude.{◌≡◌, List, ℕ, ◌+◌, ◌≤◌, ◌<◌, length};
ghost use Rattle.lists.specs.Blocks.{stored};
ghost use Rattle.state_places.specs.Sizes.{held_at, store_size, result_size, most_results};
ghost use Rattle.script_rules.specs.World.{on_held};
ghost use Rattle.script_rules.specs.Finish.{result_part, finish};
ghost use Rattle.script_rules.specs.Send.{Room, until, asked, request};
ghost use Rattle.script_rules.specs.Start.{ends, waits_for};
ghost use Rattle.state_core.specs.Reading.{central, held, world};

use state::{Running, StepResult, StepStatus};
use state_core::{Core, Turn};
use time::{Micros, Millis};

// The bytes of all results but the oldest.
const NEWER_RESULTS: usize = state_places::MAX_RESULT_VALUE * 63;

// ---- a step ends

// The value of a result that comes behind count others: n bytes of the store, from beyond the results' part.
fn keep_value(store: &mut [u8], count: usize, from: usize, n: usize)
    requires { (length store.old ≡ store_size) × (count ≤ most_results) × (n ≤ result_size) × (held_at ≤ from) × (from + n ≤ store_size) }
    ensures { store.new ≡ stored result_part count store.old from n store.old }
{
    if count < state_places::MAX_RESULTS {
        let at = state_places::result_at(count);
        bytes_copies::copy_within(store, at, from, n);
    } else {
        bytes_copies::copy_within(
            store,
            state_places::result_at(0),
            state_places::result_at(1),
            NEWER_RESULTS,
        );
        bytes_copies::copy_within(store, state_places::result_at(63), from, n);
    }
}

// The running step ends; the len bytes of the store from `from` on are its value, `heard` is what an aged wait passed on.
pub fn finish(
    c: Core,
    tables: &mut [u64; 1152],
    store: &mut [u8],
    at: Micros,
    status: StepStatus,
    from: usize,
    len: u8,
    heard: u64,
) -> Core
    requires { (length store.old ≡ store_size) × (c.counts.results ≤ most_results) × (len ≤ result_size) × (held_at ≤ from) × (from + len ≤ store_size) }
    ensures { held result tables.new store.new ≡ finish (held c tables.old store.old) at status from len heard }
{
    let mut running = c.running;
    if running.active {
        let mut counts = c.counts;
        let count = counts.results;
        let n = len as usize;
        keep_value(store, count, from, n);
        let result = StepResult {
            index: running.index,
            at,
            status,
            len,
            heard,
        };
        let more = words_result::push_result(tables, count, result);
        let linked = c.bearer;
        let bearer = link_record::answered(linked);
        running.active = false;
        counts.results = more;
        let mut o = c;
        o.running = running;
        o.bearer = bearer;
        o.counts = counts;
        return o;
    }
    c
}

// The running step ends with no value.
pub fn end(
    c: Core,
    tables: &mut [u64; 1152],
    store: &mut [u8],
    at: Micros,
    status: StepStatus,
) -> Core
    requires { (length store.old ≡ store_size) × (c.counts.results ≤ most_results) }
    ensures { held result tables.new store.new ≡ ends (held c tables.old store.old) at status }
{
    finish(c, tables, store, at, status, state_places::HELD_AT, 0, 0)
}

// The same of a turn, with a value.
pub fn finish_turn(
    t: Turn,
    tables: &mut [u64; 1152],
    store: &mut [u8],
    at: Micros,
    status: StepStatus,
    from: usize,
    len: u8,
) -> Turn
    requires { (length store.old ≡ store_size) × (t.core.counts.results ≤ most_results) × (len ≤ result_size) × (held_at ≤ from) × (from + len ≤ store_size) }
    ensures { (o : List ℕ) → world result tables.new store.new o ≡ on_held (world t tables.old store.old o) (finish (held t.core tables.old store.old) at status from len 0) }
{
    let core = t.core;
    let sent = t.sent;
    let next = finish(core, tables, store, at, status, from, len, 0);
    Turn { core: next, sent }
}

// The same of a turn, with no value.
pub fn end_turn(
    t: Turn,
    tables: &mut [u64; 1152],
    store: &mut [u8],
    at: Micros,
    status: StepStatus,
) -> Turn
    requires { (length store.old ≡ store_size) × (t.core.counts.results ≤ most_results) }
    ensures { (o : List ℕ) → world result tables.new store.new o ≡ on_held (world t tables.old store.old o) (ends (held t.core tables.old store.old) at status) }
{
    finish_turn(t, tables, store, at, status, state_places::HELD_AT, 0)
}

// ---- a step runs

// The running step has a deadline.
fn until(r: Running, at: Micros) -> Running
    ensures { result ≡ until r at }
{
    let mut o = r;
    o.deadline = at;
    o.dated = true;
    o
}

// The step runs until its milliseconds are over.
pub fn wait_for(c: Core, at: Micros, ms: Millis) -> Core
    ensures { (w s : List ℕ) → held result w s ≡ waits_for (held c w s) at ms }
{
    let running = c.running;
    let mut o = c;
    o.running = until(running, time::deadline(at, ms));
    o
}

// The same of a turn.
pub fn run_for(t: Turn, at: Micros, ms: Millis) -> Turn
    ensures { (w s o : List ℕ) → world result w s o ≡ on_held (world t w s o) (waits_for (held t.core w s) at ms) }
{
    let core = t.core;
    let sent = t.sent;
    let next = wait_for(core, at, ms);
    Turn { core: next, sent }
}

// ---- a request goes out

// A request of this opcode has gone out now: its response is awaited, for the ATT timeout.
pub fn asked(c: Core, at: Micros, opcode: u8) -> Core
    ensures { (w : List ℕ) → central result w ≡ asked (central c w) at opcode }
{
    let running = c.running;
    let linked = c.bearer;
    let mut o = c;
    o.running = until(running, time::att_deadline(at));
    o.bearer = link_record::awaiting(linked, opcode);
    o
}

// An ATT request goes out now.
pub fn request(t: Turn, out: &mut [u8], at: Micros, pdu: &[u8]) -> Turn
    requires { Room t.sent (length out.old) (length pdu.now) × (0 < length pdu.now) }
    ensures { (w s : List ℕ) → world result w s out.new ≡ request (world t w s out.old) at pdu.now }
{
    let core = t.core;
    let sent = t.sent;
    let opcode = pdu[0];
    let told = script_sends::send(sent, out, l2cap::cid::ATT, pdu);
    let next = asked(core, at, opcode);
    Turn {
        core: next,
        sent: told,
    }
}
