// The fields of a step and of a target, after a number for each case.
use crate::{more, more_of_flag};
use notifications::Age;
use state::{Address, Step, Target};
use time::Millis;
use uuid_value::Uuid;

fn of_uuid(h: u64, u: Uuid) -> u64 {
    more(more(h, u.low), u.high)
}

fn of_address(h: u64, a: Address) -> u64 {
    more_of_flag(more(more(h, a.low as u64), a.high as u64), a.random)
}

fn of_target(h: u64, t: Target) -> u64 {
    match t {
        Target::Any => more(h, 1),
        Target::Address(a) => of_address(more(h, 2), a),
        Target::Service(u) => of_uuid(more(h, 3), u),
    }
}

fn of_millis(h: u64, case: u64, ms: Millis) -> u64 {
    more(more(h, case), ms.0 as u64)
}

fn of_age(h: u64, a: Age) -> u64 {
    match a {
        Age::Any => more(h, 1),
        Age::Within(ms) => of_millis(h, 2, ms),
    }
}

fn of_named(h: u64, case: u64, u: Uuid, x: bool) -> u64 {
    more_of_flag(of_uuid(more(h, case), u), x)
}

fn of_connect(h: u64, target: Target, interval: u16, latency: u16, timeout: u16) -> u64 {
    let a = more(of_target(h, target), interval as u64);
    more(more(a, latency as u64), timeout as u64)
}

// A step that names a characteristic or a service; DiscoverServices names none.
fn of_naming(h: u64, step: Step) -> u64 {
    match step {
        Step::DiscoverCharacteristics { service } => of_named(h, 5, service, false),
        Step::Subscribe {
            characteristic,
            indicate,
        } => of_named(h, 6, characteristic, indicate),
        Step::Write {
            characteristic,
            with_response,
        } => of_named(h, 7, characteristic, with_response),
        Step::Read { characteristic } => of_named(h, 8, characteristic, false),
        Step::WaitNotification {
            characteristic,
            within_ms,
            age,
        } => of_named(
            of_age(of_millis(h, 9, within_ms), age),
            9,
            characteristic,
            false,
        ),
        _ => more(h, 4),
    }
}

pub fn of_step(h: u64, step: Step) -> u64 {
    match step {
        Step::Scan { ms } => of_millis(h, 1, ms),
        Step::Connect {
            target,
            interval,
            latency,
            timeout,
            within_ms,
        } => of_connect(
            of_millis(h, 2, within_ms),
            target,
            interval,
            latency,
            timeout,
        ),
        Step::ExchangeMtu { mtu } => more(more(h, 3), mtu as u64),
        Step::Wait { ms } => of_millis(h, 10, ms),
        Step::Disconnect => more(h, 11),
        Step::Capture { enabled } => more_of_flag(more(h, 12), enabled),
        Step::CaptureSecrets { secrets } => more_of_flag(more(h, 13), secrets),
        _ => of_naming(h, step),
    }
}
