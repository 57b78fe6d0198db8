// Whether a state in numbers is one that calls take, and the refusals that calls share.
#![tactic(auto)]

ghost use Rattle.std.specs.Prelude.{◌≡◌, ◌≤◌};
ghost use Rattle.state_places.specs.Sizes.{most_steps, most_results, most_characteristics, most_notifications};
ghost use Rattle.state_refusals.specs.Refusals.{gate_number};
ghost use Rattle.state_rules.specs.Fit.{fits};
ghost use Rattle.state_rules.specs.Gate.{gate, gate_quiet, gate_reader};
ghost use Rattle.state_core.specs.Reading.{central};
ghost use Rattle.state_fit.specs.Parts.{core_fits, tables_fit};

use state::Counts;
use state_core::Core;
use state_refusals::Refusal;
use time::Micros;

// ---- fit: of the core, then of the tables. Apart and small, each is taken into the calls, and no core is copied to be tested.

// Whether all but the tables is fit.
pub fn core_fits(c: Core) -> bool
    ensures { result ≡ core_fits c }
{
    let n = c.counts;
    let k = c.counters;
    let b = c.bearer;
    let r = c.running;
    state_rules::head_fit(n, k, b, r, c.reports, c.key_count)
}

// Whether what is in use of the tables is fit. Of the reports nothing is left to test: no word says a length that is too long.
pub fn tables_fit(tables: &[u64; 1152], n: Counts, links: u64) -> bool
    requires { (n.waiting ≤ most_steps) × (n.results ≤ most_results) × (n.characteristics ≤ most_characteristics) × (n.notifications ≤ most_notifications) }
    ensures { result ≡ tables_fit tables.now n.waiting n.results n.characteristics n.notifications links }
{
    words_step::steps_fit(tables, n.waiting)
        & words_result::results_fit(tables, n.results)
        & words_characteristic::is_rising(tables, n.characteristics)
        & words_notification::values_fit(tables, n.notifications)
        & words_notification::links_fit(tables, n.notifications, links)
}

// Whether the state is fit. The core is lent, as the tables are.
fn is_fit(c: &Core, tables: &[u64; 1152]) -> bool
    ensures { result ≡ fits (central c.now tables.now) }
{
    let links = c.counters.links;
    core_fits(*c) && tables_fit(tables, c.counts, links)
}

// ---- the gates: refusals 1 to 3, the first that applies

// Of a call that may send.
pub fn gate(
    c: Core,
    tables: &[u64; 1152],
    store_len: usize,
    out_len: usize,
    at: Micros,
) -> Result<(), Refusal>
    ensures { gate_number result ≡ gate (central c tables.now) store_len out_len at }
{
    let sized = state_refusals::sizes_fit(store_len, out_len);
    let late = time::too_late(at);
    state_refusals::first_refusal(is_fit(&c, tables), sized, !late)
}

// Of a call that sends nothing.
pub fn gate_quiet(
    c: Core,
    tables: &[u64; 1152],
    store_len: usize,
    at: Micros,
) -> Result<(), Refusal>
    ensures { gate_number result ≡ gate_quiet (central c tables.now) store_len at }
{
    let sized = store_len == state_places::STORE_SIZE;
    let timely = !time::too_late(at);
    state_refusals::first_refusal(is_fit(&c, tables), sized, timely)
}

// Of a call that only reads.
pub fn gate_reader(c: Core, tables: &[u64; 1152], store_len: usize) -> Result<(), Refusal>
    ensures { gate_number result ≡ gate_reader (central c tables.now) store_len }
{
    let sized = store_len == state_places::STORE_SIZE;
    state_refusals::first_refusal(is_fit(&c, tables), sized, true)
}
