// What every call gives: the state that it leaves, its refusal if there is one, and what it asks for beside.
#![tactic(auto)]

ghost use Rattle.std.specs.Prelude.{◌≡◌, List, ℕ, None, Some};
ghost use Rattle.script_rules.specs.Outcome.{begins};
ghost use Rattle.state_core.specs.Reading.{central, world};

use state::Sent;
use state_core::{Core, Turn};
use state_refusals::Refusal;

// The answer of a call: S is the core, or the core with its tables; T is what the call sends or asks for.
#[derive(Clone, Copy)]
pub struct Answer<S, T> {
    pub state: S,
    pub refusal: Option<Refusal>,
    pub gives: T,
}

// Nothing is sent.
pub const UNSENT: Sent = Sent {
    frames: 0,
    bytes: 0,
    request: None,
};

// A call begins: nothing was sent.
pub fn begin(core: Core) -> Turn
    ensures { (w s o : List ℕ) → world result w s o ≡ begins (central core w) s o }
{
    Turn { core, sent: UNSENT }
}

// A call is done.
pub fn done<T>(core: Core, gives: T) -> Answer<Core, T>
    ensures { result ≡ record { state = core; refusal = None; gives = gives } }
{
    Answer {
        state: core,
        refusal: None,
        gives,
    }
}

// A call is refused.
pub fn refuse<T>(core: Core, why: Refusal, gives: T) -> Answer<Core, T>
    ensures { result ≡ record { state = core; refusal = Some why; gives = gives } }
{
    Answer {
        state: core,
        refusal: Some(why),
        gives,
    }
}
