// Which batches of steps are taken: what each step may be, and what the counters have room for.
#![tactic(auto)]

ghost use Rattle.std.specs.Prelude.{◌≡◌, ◌≤◌, take};
ghost use Rattle.state_places.specs.Sizes.{most_steps};
ghost use Rattle.lists.specs.Queue.{all};
ghost use Rattle.script_rules.specs.Batches.{placed_fits, batch_fits, counters_fit};

use script_rules::{Batch, Placed};
use state::Counters;

// ---- refusal 4

// Whether a batch accepts a step, its value within size lent bytes.
fn placed_fits(p: Placed, size: usize) -> bool
    ensures { result ≡ placed_fits size p }
{
    let step = p.step;
    let len = p.len;
    let place = p.place;
    if !state_rules::step_fits(step, len) {
        return false;
    }
    if !state_kinds::carries(step) {
        return true;
    }
    if size < len {
        return false;
    }
    place <= size - len
}

fn all_fit(steps: [Placed; 64], count: usize, size: usize) -> bool
    requires { count ≤ most_steps }
    ensures { result ≡ all (placed_fits size) (take count steps) }
{
    for p in &steps[..count] {
        if !placed_fits(*p, size) {
            return false;
        }
    }
    true
}

pub fn batch_fits(b: Batch, size: usize) -> bool
    ensures { result ≡ batch_fits size b }
{
    let count = b.count;
    if state_places::MAX_STEPS < count {
        return false;
    }
    let steps = b.steps;
    all_fit(steps, count, size)
}

// ---- refusal 5

pub fn counters_fit(k: Counters, waiting: usize, count: usize) -> bool
    requires { (waiting ≤ most_steps) × (count ≤ most_steps) }
    ensures { result ≡ counters_fit k waiting count }
{
    let next = k.next_index as usize;
    let last = next + waiting + count;
    (last <= state_rules::LAST_INDEX) & (k.refused_steps < state_counters::COUNTER_END)
}
