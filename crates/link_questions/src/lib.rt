// What the running step has asked the peer for.
#![tactic(auto)]

ghost use Rattle.std.specs.Prelude.{◌≡◌};
ghost use Rattle.link_questions.specs.Questions.{asked_in, asked_by};

use state::Step;
use uuid_value::Uuid;

// What services are looked for: all of them, or the one of a UUID for its characteristics.
// Kept: an enum and no Option<Uuid>, since All says what a walk with no UUID does, and None would not.
#[derive(Clone, Copy)]
pub enum Goal {
    All,
    Of(Uuid),
}

// What the running step has asked for.
// Kept: Nothing is one of them and not an Option's None, since link_responses goes through all of them in one match, for an error and for
// an answer, as its definitions absent and present do; there Nothing does as little as any other, and an Option would only nest the match.
#[derive(Clone, Copy)]
pub enum Asked {
    Mtu(u16),
    Services(Goal),
    Characteristics(Uuid),
    Descriptors(Uuid),
    Written,
    Value,
    Nothing,
}

// By the phase of a walk for a service's characteristics.
fn asked_in(uuid: Uuid, phase: u8) -> Asked
    ensures { result ≡ asked_in uuid phase }
{
    if phase == 0 {
        return Asked::Services(Goal::Of(uuid));
    }
    if phase == 1 {
        return Asked::Characteristics(uuid);
    }
    Asked::Descriptors(uuid)
}

pub fn asked_by(step: Step, phase: u8) -> Asked
    ensures { result ≡ asked_by step phase }
{
    match step {
        Step::Scan { ms: _ } => Asked::Nothing,
        Step::Connect {
            target: _,
            interval: _,
            latency: _,
            timeout: _,
            within_ms: _,
        } => Asked::Nothing,
        Step::ExchangeMtu { mtu } => Asked::Mtu(mtu),
        Step::DiscoverServices => {
            if phase == 0 {
                return Asked::Services(Goal::All);
            }
            Asked::Nothing
        }
        Step::DiscoverCharacteristics { service } => asked_in(service, phase),
        Step::Subscribe {
            characteristic: _,
            indicate: _,
        } => Asked::Written,
        Step::Write {
            characteristic: _,
            with_response: _,
        } => Asked::Written,
        Step::Read { characteristic: _ } => Asked::Value,
        Step::WaitNotification {
            characteristic: _,
            within_ms: _,
            age: _,
        } => Asked::Nothing,
        Step::Wait { ms: _ } => Asked::Nothing,
        Step::Disconnect => Asked::Nothing,
        Step::Capture { enabled: _ } => Asked::Nothing,
        Step::CaptureSecrets { secrets: _ } => Asked::Nothing,
    }
}
