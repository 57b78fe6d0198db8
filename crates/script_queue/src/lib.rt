// The waiting steps: a batch goes in, the first comes out and runs.
#![tactic(auto)]

ghost use Rattle.std.specs.Prelude.{◌≡◌, true, ◌+◌, ◌≤◌, ◌<◌, length};
ghost use Rattle.state_places.specs.Sizes.{most_steps, value_size};
ghost use Rattle.lists.specs.Queue.{all};
ghost use Rattle.script_rules.specs.Batches.{placed_fits};
ghost use Rattle.script_rules.specs.BatchSteps.{value_len, steps};
ghost use Rattle.script_rules.specs.Waiting.{push_one, push_all, take_step};
ghost use Rattle.state_core.specs.declared.Core.{Core};
ghost use Rattle.state_core.specs.Reading.{held};
ghost use Rattle.script_queue.specs.Numbers.{largest, last_index, line_of, with_line, started};

use script_rules::{Batch, Placed};
use state::{Queued, Running};
use state_core::Core;
use time::Micros;

// ---- one more

// How many bytes of value a step has.
fn value_len(p: Placed) -> usize
    ensures { result ≡ value_len p }
{
    if state_kinds::carries(p.step) {
        p.len
    } else {
        0
    }
}

// All that a batch changes of the core: a loop that carries these two numbers goes faster than one that carries the core.
#[derive(Clone, Copy)]
struct Line {
    waiting: usize,
    refused: u64,
}

fn line_of(c: Core) -> Line
    ensures { result ≡ line_of c }
{
    Line {
        waiting: c.counts.waiting,
        refused: c.counters.refused_steps,
    }
}

fn with_line(c: Core, l: Line) -> Core
    ensures { result ≡ with_line c l }
{
    let mut counts = c.counts;
    let mut counters = c.counters;
    counts.waiting = l.waiting;
    counters.refused_steps = l.refused;
    let mut o = c;
    o.counts = counts;
    o.counters = counters;
    o
}

// A step waits behind the others, with its value; or is counted, where 64 wait.
fn push_one(l: Line, tables: &mut [u64; 1152], store: &mut [u8], values: &[u8], p: Placed) -> Line
    requires { (value_len p ≤ value_size) × (l.refused < largest) }
    ensures { (c : Core) → held (with_line c result) tables.new store.new ≡ push_one (held (with_line c l) tables.old store.old) values.now p }
{
    let count = l.waiting;
    let refused = l.refused;
    if count < state_places::MAX_STEPS {
        let n = value_len(p);
        let at = state_places::waiting_at(count);
        let step = p.step;
        bytes_copies::copy_in(store, at, values, p.place, n);
        words_step::put_step(tables, count, step, n as u8);
        let waiting = count + 1;
        return Line { waiting, refused };
    }
    let more = refused + 1;
    Line {
        waiting: count,
        refused: more,
    }
}

// The steps of a batch wait, one after another.
pub fn push_all(
    c: Core,
    tables: &mut [u64; 1152],
    store: &mut [u8],
    values: &[u8],
    b: Batch,
) -> Core
    requires { (b.count ≤ most_steps) × (all (placed_fits (length values.now)) (steps b) ≡ true) × (c.counters.refused_steps + b.count < largest) }
    ensures { held result tables.new store.new ≡ push_all (held c tables.old store.old) values.now (steps b) }
{
    let all = b.steps;
    let count = b.count;
    let mut l = line_of(c);
    for i in 0..count {
        l = push_one(l, tables, store, values, all[i]);
    }
    with_line(c, l)
}

// ---- the first begins

// A waiting step runs, with the next index.
fn start(c: Core, q: Queued) -> Core
    requires { (0 < c.counts.waiting) × (c.counters.next_index < last_index) }
    ensures { result ≡ started c q }
{
    let mut counts = c.counts;
    let mut counters = c.counters;
    let index = counters.next_index;
    let step = q.step;
    counts.waiting = counts.waiting - 1;
    counters.next_index = index + 1;
    let running = Running {
        deadline: Micros(0),
        step,
        index,
        cursor: 1,
        len: q.len,
        phase: 0,
        active: true,
        dated: false,
    };
    let mut o = c;
    o.running = running;
    o.counts = counts;
    o.counters = counters;
    o.key_count = 0;
    o
}

// The first waiting step runs; its value and those behind it move down by one.
pub fn take_step(c: Core, tables: &mut [u64; 1152], store: &mut [u8]) -> Core
    requires { (0 < c.counts.waiting) × (c.counts.waiting ≤ most_steps) × (c.counters.next_index < last_index) }
    ensures { held result tables.new store.new ≡ take_step (held c tables.old store.old) }
{
    let counts = c.counts;
    let count = counts.waiting;
    let first = words_step::queued_at(tables, 0);
    let size = state_places::MAX_VALUE * count;
    bytes_copies::copy_within(
        store,
        state_places::RUNNING_AT,
        state_places::WAITING_AT,
        size,
    );
    words_step::shift_steps(tables, count - 1);
    start(c, first)
}
