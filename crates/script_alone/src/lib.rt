// What each kind of step does where there is no link, and which steps a closed bearer bars.
#![tactic(auto)]

ghost use Rattle.std.specs.Prelude.{◌≡◌};
ghost use Rattle.script_rules.specs.Start.{unlinked_step, barred};

use script_rules::Alone;
use state::{Bearer, Options, Step};

pub fn alone_with(step: Step) -> Alone
    ensures { result ≡ unlinked_step step }
{
    match step {
        Step::Scan { ms } => Alone::Runs(ms),
        Step::Connect { within_ms, .. } => Alone::Runs(within_ms),
        Step::ExchangeMtu { .. } => Alone::NeedsLink,
        Step::DiscoverServices => Alone::NeedsLink,
        Step::DiscoverCharacteristics { .. } => Alone::NeedsLink,
        Step::Subscribe { .. } => Alone::NeedsLink,
        Step::Write { .. } => Alone::NeedsLink,
        Step::Read { .. } => Alone::NeedsLink,
        Step::WaitNotification { .. } => Alone::NeedsLink,
        Step::Wait { ms } => Alone::Runs(ms),
        Step::Disconnect => Alone::NeedsLink,
        Step::Capture { .. } => Alone::Done,
        Step::CaptureSecrets { .. } => Alone::Done,
    }
}

// Whether a step may not begin: in strict mode one that could send ATT, on a bearer that an ATT timeout has closed.
pub fn is_barred(o: Options, b: Bearer, step: Step) -> bool
    ensures { result ≡ barred o b step }
{
    o.strict & (b.closed & state_kinds::is_att(step))
}
