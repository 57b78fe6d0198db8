// What the running step makes of an advertisement.
#![tactic(auto)]

ghost use Rattle.std.specs.Prelude.{◌≡◌, ◌<◌, length};
ghost use Rattle.state_places.specs.Sizes.{most_reports, store_size};
ghost use Rattle.adv_reports.specs.Reports.{response_bytes};
ghost use Rattle.radio_match.specs.Matching.{scannable, connectable, listens, asks, reaches, chosen};

use l2cap_params::Parameters;
use state::{Running, Step, Target};

// What is to be sent to an advertiser at once.
// Kept: an enum of three answers, as the Rust has it, since Option<AdvAction> would say nothing more and C's numbers 0, 1, 2 are these.
#[derive(Clone, Copy)]
pub enum AdvAction {
    Nothing,
    ScanRequest,
    Connect(Parameters),
}

// PDU types.
// Kept: numbers, since C hands the type in as a byte, any value is taken, and the report keeps it.
const ADV_IND: u8 = 0;

const ADV_DIRECT_IND: u8 = 1;

const ADV_SCAN_IND: u8 = 6;

const MAX_LENGTH: u8 = state_places::MAX_DATA as u8;

// Whether an advertiser answers scan requests.
pub fn is_scannable(pdu: u8) -> bool
    ensures { result ≡ scannable pdu }
{
    (pdu == ADV_IND) | (pdu == ADV_SCAN_IND)
}

// Whether an advertiser can be connected to.
pub fn is_connectable(pdu: u8, us: bool) -> bool
    ensures { result ≡ connectable pdu us }
{
    (pdu == ADV_IND) | ((pdu == ADV_DIRECT_IND) & us)
}

// Whether advertisements are heard.
#[tactic(auto, unfolding(crate::specs::Matching::listens))]
pub fn is_listening(r: Running) -> bool
    ensures { result ≡ listens r }
{
    let step = r.step;
    r.active
        & (state_kinds::is_kind(step, state_kinds::SCAN)
            | state_kinds::is_kind(step, state_kinds::CONNECT))
}

// Whether who advertises so is asked.
#[tactic(auto, unfolding(crate::specs::Matching::asks))]
pub fn is_asking(r: Running, pdu: u8) -> bool
    ensures { result ≡ asks r pdu }
{
    let step = r.step;
    r.active & state_kinds::is_kind(step, state_kinds::SCAN) & is_scannable(pdu)
}

// The scan response of report i; no bytes where its length is above 31, since then it has none.
pub fn response_of<'a>(store: &'a [u8], i: usize, len: u8) -> &'a [u8]
    requires { (length store.now ≡ store_size) × (i < most_reports) }
    ensures { result.now ≡ response_bytes store.now i len }
{
    if MAX_LENGTH < len {
        return &store[..0];
    }
    let from = state_places::response_at(i);
    let to = from + usize::from(len);
    &store[from..to]
}

// Whether the target is met by an advertiser, its advertising data and its scan response.
#[tactic(auto, unfolding(crate::specs::Matching::reaches))]
fn is_reached(target: Target, who: u64, data: &[u8], response: &[u8]) -> bool
    ensures { result ≡ reaches target who «data».now response.now }
{
    match target {
        Target::Any => true,
        Target::Address(a) => adv_reports::key_of(a) == who,
        Target::Service(uuid) => {
            adv_listing::ad_lists_service(data, uuid)
                || adv_listing::ad_lists_service(response, uuid)
        }
    }
}

// What a step that is no Scan does about an advertiser.
#[tactic(auto, unfolding(crate::specs::Matching::chosen))]
pub fn choose(step: Step, who: u64, data: &[u8], response: &[u8], pdu: u8, us: bool) -> AdvAction
    ensures { result ≡ chosen step who «data».now response.now pdu us }
{
    match step {
        Step::Connect {
            target,
            interval,
            latency,
            timeout,
            within_ms: _,
        } => {
            if is_connectable(pdu, us) && is_reached(target, who, data, response) {
                return AdvAction::Connect(Parameters {
                    interval,
                    latency,
                    timeout,
                });
            }
            AdvAction::Nothing
        }
        _ => AdvAction::Nothing,
    }
}
