// A step whose deadline has come: which it is, and what its end leaves of its bearer.
#![tactic(auto)]

ghost use Rattle.std.specs.Prelude.{◌≡◌, ◌≤◌};
ghost use Rattle.script_rules.specs.Timeouts.{due, closing};

use state::{Bearer, Options, Running};
use time::Micros;

// Whether a step runs whose deadline is now or before.
pub fn is_due(r: Running, at: Micros) -> bool
    ensures { result ≡ due r at }
{
    r.active & (r.dated & (r.deadline.0 <= at.0))
}

// The bearer of a step that its deadline ends: in strict mode it is closed, if the step's request is still awaited.
pub fn closing(o: Options, r: Running, b: Bearer) -> Bearer
    ensures { result ≡ closing o r b }
{
    let link = b.link;
    let awaits = b.present & !(link.pending == 0);
    Bearer {
        closed: b.closed | (o.strict & (state_kinds::is_att(r.step) & awaits)),
        ..b
    }
}
