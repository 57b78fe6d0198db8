// Whether a core is one that calls take, and which steps a batch accepts.
#![tactic(auto)]

ghost use Rattle.std.specs.Prelude.{◌≡◌, ◌≤◌};
ghost use Rattle.state_rules.specs.Steps.{mtu_named, step_fits};
ghost use Rattle.state_rules.specs.Fit.{counts_fit, is_request};
ghost use Rattle.state_rules.specs.Parts.{step_fit, bearer_fits, head_fits};

use att_pdu::op;
use state::{Bearer, Counters, Counts, Running, Step};
pub use state_counters::LAST_INDEX;
pub use state_refusals::Refusal;

// The ATT_MTU that a held frame has room for.
pub const MAX_MTU: u16 = 247;

const LAST_PHASE: u8 = 2;

// 2^63.
const LAST_DEADLINE: u64 = 9_223_372_036_854_775_808;

// ---- steps

// The MTU that a step names, or 0.
fn mtu_named(step: Step) -> u16
    ensures { result ≡ mtu_named step }
{
    match step {
        Step::ExchangeMtu { mtu } => mtu,
        _ => 0,
    }
}

// Whether a batch accepts a step with len bytes.
#[tactic(auto, unfolding(crate::specs::Steps::step_fits))]
pub fn step_fits(step: Step, len: usize) -> bool
    ensures { result ≡ step_fits step len }
{
    (!state_kinds::carries(step) | (len <= state_places::MAX_VALUE)) & (mtu_named(step) <= MAX_MTU)
}

// ---- the core

#[tactic(auto, unfolding(crate::specs::Fit::counts_fit))]
fn counts_fit(n: Counts, reports: usize, keys: usize) -> bool
    ensures { result ≡ counts_fit n reports keys }
{
    (n.waiting <= state_places::MAX_STEPS)
        & (n.results <= state_places::MAX_RESULTS)
        & (n.services <= state_places::MAX_SERVICES)
        & (n.characteristics <= state_places::MAX_CHARACTERISTICS)
        & (n.notifications <= state_places::MAX_NOTIFICATIONS)
        & (reports <= state_places::MAX_REPORTS)
        & (keys <= state_places::MAX_KEYS)
}

#[tactic(auto, unfolding(crate::specs::Parts::step_fit))]
fn running_fits(r: Running, waiting: usize) -> bool
    ensures { result ≡ step_fit r waiting }
{
    let active = r.active;
    let step = r.step;
    let at = r.deadline;
    (!active | step_fits(step, usize::from(r.len)))
        & (!active | (r.phase <= LAST_PHASE))
        & (active | (waiting == 0))
        & (!(active & r.dated) | (at.0 <= LAST_DEADLINE))
}

// Whether a request of this opcode is one that a step sends.
fn is_request(opcode: u8) -> bool
    ensures { result ≡ is_request opcode }
{
    (opcode == op::EXCHANGE_MTU_REQ)
        | (opcode == op::FIND_INFORMATION_REQ)
        | (opcode == op::READ_BY_TYPE_REQ)
        | (opcode == op::READ_REQ)
        | (opcode == op::READ_BY_GROUP_TYPE_REQ)
        | (opcode == op::WRITE_REQ)
}

#[tactic(auto, unfolding(crate::specs::Parts::bearer_fits))]
fn bearer_fits(b: Bearer, r: Running) -> bool
    ensures { result ≡ bearer_fits b r }
{
    let present = b.present;
    let link = b.link;
    let mtu = link.mtu;
    let pending = link.pending;
    let quiet = pending == 0;
    let step = r.step;
    (!present | (b.held <= state_places::MAX_FRAME))
        & (!present | ((att_pdu::DEFAULT_MTU <= mtu) & (mtu <= MAX_MTU)))
        & (!(present & !quiet) | (is_request(pending) & r.active & state_kinds::is_att(step)))
}

// All of fit but the tables.
#[tactic(auto, unfolding(crate::specs::Parts::head_fits))]
pub fn head_fit(n: Counts, k: Counters, b: Bearer, r: Running, reports: usize, keys: usize) -> bool
    ensures { result ≡ head_fits n k b r reports keys }
{
    counts_fit(n, reports, keys)
        & state_counters::counters_fit(k, n)
        & running_fits(r, n.waiting)
        & bearer_fits(b, r)
}
