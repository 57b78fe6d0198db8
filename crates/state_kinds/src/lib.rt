// The kinds of steps, and what goes by the kind alone.
#![tactic(auto)]

ghost use Rattle.std.specs.Prelude.{◌≡◌, eqb};
ghost use Rattle.state_kinds.specs.Kinds.{kind_of, carries, att_step};

use state::Step;

// In the order in which they are declared; a trace numbers them so too (docs/TRACE.md, 'A batch').
// Kept: numbers beside the enum `Step`, since the words that C lends and the traces hold them.
pub const SCAN: u8 = 0;

pub const CONNECT: u8 = 1;

pub const EXCHANGE_MTU: u8 = 2;

pub const DISCOVER_SERVICES: u8 = 3;

pub const DISCOVER_CHARACTERISTICS: u8 = 4;

pub const SUBSCRIBE: u8 = 5;

pub const WRITE: u8 = 6;

pub const READ: u8 = 7;

pub const WAIT_NOTIFICATION: u8 = 8;

pub const WAIT: u8 = 9;

pub const DISCONNECT: u8 = 10;

pub const CAPTURE: u8 = 11;

pub const CAPTURE_SECRETS: u8 = 12;

pub fn kind_of(step: Step) -> u8
    ensures { result ≡ kind_of step }
{
    match step {
        Step::Scan { .. } => SCAN,
        Step::Connect { .. } => CONNECT,
        Step::ExchangeMtu { .. } => EXCHANGE_MTU,
        Step::DiscoverServices => DISCOVER_SERVICES,
        Step::DiscoverCharacteristics { .. } => DISCOVER_CHARACTERISTICS,
        Step::Subscribe { .. } => SUBSCRIBE,
        Step::Write { .. } => WRITE,
        Step::Read { .. } => READ,
        Step::WaitNotification { .. } => WAIT_NOTIFICATION,
        Step::Wait { .. } => WAIT,
        Step::Disconnect => DISCONNECT,
        Step::Capture { .. } => CAPTURE,
        Step::CaptureSecrets { .. } => CAPTURE_SECRETS,
    }
}

pub fn is_kind(step: Step, kind: u8) -> bool
    ensures { result ≡ eqb (kind_of step) kind }
{
    kind_of(step) == kind
}

// Whether a step has bytes in the store.
pub fn carries(step: Step) -> bool
    ensures { result ≡ carries step }
{
    matches!(step, Step::Write { .. } | Step::WaitNotification { .. })
}

// Whether a step could send ATT: requests, and a Write without response a command.
pub fn is_att(step: Step) -> bool
    ensures { result ≡ att_step step }
{
    matches!(
        step,
        Step::ExchangeMtu { .. }
            | Step::DiscoverServices
            | Step::DiscoverCharacteristics { .. }
            | Step::Subscribe { .. }
            | Step::Write { .. }
            | Step::Read { .. }
    )
}
