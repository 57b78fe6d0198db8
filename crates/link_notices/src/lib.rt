// How many notifications and indications ever came.
#![tactic(auto)]

ghost use Rattle.std.specs.Prelude.{◌≡◌, ◌<◌};
ghost use Rattle.state_counters.specs.Counters.{most_notified};
ghost use Rattle.link_rules.specs.Notices.{noted};

use state::Counters;

// One more was notified.
pub fn note(k: Counters) -> Counters
    requires { k.notified < most_notified }
    ensures { result ≡ noted k }
{
    Counters {
        notified: k.notified + 1,
        ..k
    }
}
