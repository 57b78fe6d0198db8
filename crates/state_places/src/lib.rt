// Sizes and the places of the lent store: the one file that computes them.
#![tactic(auto)]

ghost use Rattle.std.specs.Prelude.{◌≡◌, ◌+◌, ◌*◌, ◌<◌};
ghost use Rattle.state_places.specs.Sizes.{waiting_at, result_at, notification_at, report_at, response_at};

pub const MAX_STEPS: usize = 64;

pub const MAX_RESULTS: usize = 64;

pub const MAX_REPORTS: usize = 64;

pub const MAX_NOTIFICATIONS: usize = 32;

pub const MAX_SERVICES: usize = 32;

pub const MAX_CHARACTERISTICS: usize = 64;

pub const MAX_KEYS: usize = 128;

// A step value, a `contains`, a notification's value.
pub const MAX_VALUE: usize = 244;

// A result's value.
pub const MAX_RESULT_VALUE: usize = 246;

// A whole L2CAP frame.
pub const MAX_FRAME: usize = 251;

// Advertising data, or a scan response.
pub const MAX_DATA: usize = 31;

// The advertising data and the scan response of one report.
pub const REPORT_BLOCK: usize = 62;

pub const STORE_SIZE: usize = 43_631;

// 65 frames.
pub const OUTPUT_SIZE: usize = 16_315;

pub const RUNNING_AT: usize = 0;

pub const WAITING_AT: usize = 244;

pub const RESULTS_AT: usize = 15_860;

pub const NOTIFICATIONS_AT: usize = 31_604;

pub const HELD_AT: usize = 39_412;

pub const REPORTS_AT: usize = 39_663;

// Where the value of waiting step i stands.
pub fn waiting_at(i: usize) -> usize
    requires { i < 64 }
    ensures { result ≡ waiting_at i }
{
    WAITING_AT + MAX_VALUE * i
}

// Where the value of kept result i stands.
pub fn result_at(i: usize) -> usize
    requires { i < 64 }
    ensures { result ≡ result_at i }
{
    RESULTS_AT + MAX_RESULT_VALUE * i
}

// Where the value of kept notification i stands.
pub fn notification_at(i: usize) -> usize
    requires { i < 32 }
    ensures { result ≡ notification_at i }
{
    NOTIFICATIONS_AT + MAX_VALUE * i
}

// Where the advertising data of report i stands.
pub fn report_at(i: usize) -> usize
    requires { i < 64 }
    ensures { result ≡ report_at i }
{
    REPORTS_AT + REPORT_BLOCK * i
}

// Where the scan response of report i stands.
pub fn response_at(i: usize) -> usize
    requires { i < 64 }
    ensures { result ≡ response_at i }
{
    REPORTS_AT + MAX_DATA + REPORT_BLOCK * i
}
