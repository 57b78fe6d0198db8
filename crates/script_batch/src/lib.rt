// push_steps: a batch of steps waits, and the script goes on.
#![tactic(auto)]

ghost use Rattle.std.specs.Prelude.{◌≡◌};
ghost use Rattle.state_refusals.specs.Refusals.{gate_number, told_number};
ghost use Rattle.script_rules.specs.Batch.{gate_batch, push_steps};
ghost use Rattle.state_core.specs.Reading.{central};
ghost use Rattle.central_answers.specs.Answers.{outcome, Leaves};

use central_answers::{Answer, UNSENT};
use script_rules::Batch;
use state::Sent;
use state_core::Core;
use state_refusals::Refusal;
use time::Micros;

// In their order: 1, 2, 3, then 4, then 5.
fn gate_batch(
    c: Core,
    tables: &[u64; 1152],
    store_len: usize,
    out_len: usize,
    at: Micros,
    b: Batch,
    size: usize,
) -> Result<(), Refusal>
    ensures { gate_number result ≡ gate_batch (central c tables.now) store_len out_len at b size }
{
    state_fit::gate(c, tables, store_len, out_len, at)?;
    if !script_limits::batch_fits(b, size) {
        return Err(Refusal::BadBatch);
    }
    let n = c.counts;
    let k = c.counters;
    if !script_limits::counters_fit(k, n.waiting, b.count) {
        return Err(Refusal::CounterFull);
    }
    Ok(())
}

// A batch of steps waits behind the others, and the script goes on.
pub fn push_steps(
    core: Core,
    tables: &mut [u64; 1152],
    store: &mut [u8],
    out: &mut [u8],
    at: Micros,
    batch: Batch,
    values: &[u8],
) -> Answer<Core, Sent>
    ensures out_after { outcome result tables.new store.new out.new ≡ push_steps (central core tables.old) store.old out.old at batch values.now }
    ensures refused { Leaves (told_number result.refusal) core result.state tables.old tables.new store.old store.new × ((told_number result.refusal ≡ 0 → ⊥) → out.new ≡ out.old) }
{
    if let Err(why) = gate_batch(
        core,
        tables,
        store.len(),
        out.len(),
        at,
        batch,
        values.len(),
    ) {
        return central_answers::refuse(core, why, UNSENT);
    }
    let queued = script_queue::push_all(core, tables, store, values, batch);
    let t = script_run::advance(central_answers::begin(queued), tables, store, out, at);
    central_answers::done(t.core, t.sent)
}
