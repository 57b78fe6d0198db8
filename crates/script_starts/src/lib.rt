// What each step does when it begins (the Rust's `start`).
#![tactic(auto)]

ghost use Rattle.std.specs.Prelude.{◌≡◌, List, true, ℕ, ◌≤◌, length};
ghost use Rattle.state_places.specs.Sizes.{store_size, most_results, value_size};
ghost use Rattle.state_rules.specs.Facts.{Fit};
ghost use Rattle.script_rules.specs.World.{on_held, on_state};
ghost use Rattle.script_rules.specs.Ready.{Ready};
ghost use Rattle.script_rules.specs.Send.{Room};
ghost use Rattle.script_rules.specs.Discovery.{discover_services};
ghost use Rattle.script_rules.specs.Wait.{Looks, check_wait};
ghost use Rattle.script_rules.specs.Start.{waits_for, start_unlinked, forgotten, discover_in, disconnect, carried, start_linked, start};
ghost use Rattle.state_core.specs.Reading.{central, held, world};

use gatt_services::Service;
use script_rules::Alone;
use state::{LinkRequest, Sent, Step, StepStatus};
use state_core::{Core, Turn};
use time::{Micros, Millis};

mod access;

// Remote User Terminated Connection.
const REMOTE_USER_TERMINATED: u8 = 0x13;

// ---- with no link

// The running step begins, and there is no link.
pub fn start_unlinked(c: Core, tables: &mut [u64; 1152], store: &mut [u8], at: Micros) -> Core
    requires { (length store.old ≡ store_size) × (c.counts.results ≤ most_results) }
    ensures { held result tables.new store.new ≡ start_unlinked (held c tables.old store.old) at c.running.step }
{
    let running = c.running;
    let step = running.step;
    match script_alone::alone_with(step) {
        Alone::Runs(ms) => script_turns::wait_for(c, at, ms),
        Alone::Done => script_turns::end(c, tables, store, at, StepStatus::Ok),
        Alone::NeedsLink => script_turns::end(c, tables, store, at, StepStatus::NotConnected),
    }
}

// ---- with a link

// All services are asked for; what was known of the peer is forgotten.
fn start_services(t: Turn, out: &mut [u8], at: Micros) -> Turn
    requires { Room t.sent (length out.old) 7 }
    ensures { (w s : List ℕ) → world result w s out.new
        ≡ discover_services (on_held (world t w s out.old) (on_state (held t.core w s) (forgotten (central t.core w)))) at 1 }
{
    let mut core = t.core;
    let mut counts = core.counts;
    counts.services = 0;
    counts.characteristics = 0;
    core.counts = counts;
    let sent = t.sent;
    let u = Turn { core, sent };
    script_discovery::discover_services(u, out, at, 1)
}

// The characteristics of a service that is known, or else the services first.
fn start_characteristics(
    t: Turn,
    tables: &mut [u64; 1152],
    store: &mut [u8],
    out: &mut [u8],
    at: Micros,
    x: Option<Service>,
) -> Turn
    requires { Ready 64 (world t tables.old store.old out.old) × Fit (central t.core tables.old) }
    ensures { world result tables.new store.new out.new ≡ discover_in (world t tables.old store.old out.old) at x }
{
    match x {
        Some(svc) => {
            let start = svc.start;
            script_discovery::discover_characteristics(t, tables, store, out, at, svc, start)
        }
        None => script_discovery::discover_services(t, out, at, 1),
    }
}

// The link is asked to end, once.
fn start_disconnect(t: Turn) -> Turn
    ensures { (w s o : List ℕ) → world result w s o ≡ disconnect (world t w s o) }
{
    let mut core = t.core;
    let sent = t.sent;
    let bearer = core.bearer;
    let link = bearer.link;
    if link.terminating {
        return t;
    }
    core.bearer = link_record::terminated(bearer);
    Turn {
        core,
        sent: Sent {
            frames: sent.frames,
            bytes: sent.bytes,
            request: Some(LinkRequest::Terminate {
                reason: REMOTE_USER_TERMINATED,
            }),
        },
    }
}

// The step waits for a notification, and looks at those that are kept.
fn start_wait(t: Turn, tables: &mut [u64; 1152], store: &mut [u8], at: Micros, ms: Millis) -> Turn
    requires { (length store.old ≡ store_size) × Looks (central t.core tables.old) }
    ensures { (o : List ℕ) → world result tables.new store.new o
        ≡ on_held (world t tables.old store.old o) (check_wait (waits_for (held t.core tables.old store.old) at ms) at) }
{
    let core = t.core;
    let sent = t.sent;
    let dated = script_turns::wait_for(core, at, ms);
    let next = script_wait::check_wait(dated, tables, store, at);
    Turn { core: next, sent }
}

// The running step begins, and there is a link.
fn start_linked(
    t: Turn,
    tables: &mut [u64; 1152],
    store: &mut [u8],
    out: &mut [u8],
    at: Micros,
    step: Step,
) -> Turn
    requires { Ready 64 (world t tables.old store.old out.old) × Fit (central t.core tables.old) × (carried step t.core.running.len ≤ value_size) }
    ensures { world result tables.new store.new out.new ≡ start_linked (world t tables.old store.old out.old) at step }
{
    match step {
        Step::Scan { ms } => script_turns::run_for(t, at, ms),
        Step::Connect {
            target: _,
            interval: _,
            latency: _,
            timeout: _,
            within_ms: _,
        } => script_turns::end_turn(t, tables, store, at, StepStatus::Ok),
        Step::ExchangeMtu { mtu } => access::start_mtu(t, out, at, mtu),
        Step::DiscoverServices => start_services(t, out, at),
        Step::DiscoverCharacteristics { service } => {
            let core = t.core;
            let counts = core.counts;
            let x = words_service::find_service(tables, counts.services, service);
            start_characteristics(t, tables, store, out, at, x)
        }
        Step::Subscribe {
            characteristic,
            indicate,
        } => access::start_subscribe(t, tables, store, out, at, characteristic, indicate),
        Step::Write {
            characteristic,
            with_response,
        } => access::start_write(t, tables, store, out, at, characteristic, with_response),
        Step::Read { characteristic } => {
            access::start_read(t, tables, store, out, at, characteristic)
        }
        Step::WaitNotification {
            characteristic: _,
            within_ms,
            age: _,
        } => start_wait(t, tables, store, at, within_ms),
        Step::Wait { ms } => script_turns::run_for(t, at, ms),
        Step::Disconnect => start_disconnect(t),
        Step::Capture { enabled: _ } => script_turns::end_turn(
            t,
            tables,
            store,
            at,
            StepStatus::Ok,
        ),
        Step::CaptureSecrets { secrets: _ } => {
            script_turns::end_turn(t, tables, store, at, StepStatus::Ok)
        }
    }
}

// The running step begins.
pub fn start(
    t: Turn,
    tables: &mut [u64; 1152],
    store: &mut [u8],
    out: &mut [u8],
    at: Micros,
) -> Turn
    requires { Ready 64 (world t tables.old store.old out.old) × Fit (central t.core tables.old) × (t.core.running.active ≡ true) }
    ensures { world result tables.new store.new out.new ≡ start (world t tables.old store.old out.old) at }
{
    let core = t.core;
    let sent = t.sent;
    let bearer = core.bearer;
    let running = core.running;
    let step = running.step;
    if bearer.present {
        let options = core.options;
        if script_alone::is_barred(options, bearer, step) {
            return script_turns::end_turn(t, tables, store, at, StepStatus::BearerClosed);
        }
        return start_linked(t, tables, store, out, at, step);
    }
    let next = start_unlinked(core, tables, store, at);
    Turn { core: next, sent }
}
