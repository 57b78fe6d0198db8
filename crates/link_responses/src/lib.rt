// A response of the peer: what it is an answer to, and what the running step does with it (the Rust's `on_response`).
#![tactic(auto)]

ghost use Rattle.std.specs.Prelude.{◌≡◌, ◌≤◌};
ghost use Rattle.link_rules.specs.Payload.{Reads, payload_size};
ghost use Rattle.link_rules.specs.Able.{Able};
ghost use Rattle.link_rules.specs.Errors.{absent, failed};
ghost use Rattle.link_rules.specs.Responses.{present, taken, on_response};
ghost use Rattle.state_core.specs.Reading.{world};

use att_pdu::{err, op};
use link_questions::Asked;
use state::StepStatus;
use state_core::Turn;
use time::Micros;

const NOT_FOUND: StepStatus = StepStatus::AttError(err::ATTRIBUTE_NOT_FOUND);

// There is no such attribute: a walk is at its end; any other step ends with the error.
fn absent(
    t: Turn,
    tables: &mut [u64; 1152],
    store: &mut [u8],
    out: &mut [u8],
    at: Micros,
    a: Asked,
) -> Turn
    requires { Able (world t tables.old store.old out.old) }
    ensures { world result tables.new store.new out.new ≡ absent (world t tables.old store.old out.old) at a }
{
    let core = t.core;
    let counts = core.counts;
    match a {
        Asked::Mtu(_) => script_turns::end_turn(t, tables, store, at, NOT_FOUND),
        Asked::Services(g) => link_discovery::services_done(t, tables, store, out, at, g),
        Asked::Characteristics(uuid) => {
            let x = words_service::find_service(tables, counts.services, uuid);
            link_discovery::characteristics_done(t, tables, store, out, at, x)
        }
        Asked::Descriptors(uuid) => {
            let x = words_service::find_service(tables, counts.services, uuid);
            link_discovery::range_done(t, tables, store, out, at, x)
        }
        Asked::Written => script_turns::end_turn(t, tables, store, at, NOT_FOUND),
        Asked::Value => script_turns::end_turn(t, tables, store, at, NOT_FOUND),
        Asked::Nothing => script_turns::end_turn(t, tables, store, at, NOT_FOUND),
    }
}

// An error that is not 'attribute not found' ends the step.
fn failed(
    t: Turn,
    tables: &mut [u64; 1152],
    store: &mut [u8],
    out: &mut [u8],
    at: Micros,
    code: u8,
    a: Asked,
) -> Turn
    requires { Able (world t tables.old store.old out.old) }
    ensures { world result tables.new store.new out.new ≡ failed (world t tables.old store.old out.old) at code a }
{
    if code == err::ATTRIBUTE_NOT_FOUND {
        return absent(t, tables, store, out, at, a);
    }
    script_turns::end_turn(t, tables, store, at, StepStatus::AttError(code))
}

// What the running step does with an answer of n bytes.
fn present(
    t: Turn,
    tables: &mut [u64; 1152],
    store: &mut [u8],
    out: &mut [u8],
    at: Micros,
    n: usize,
    a: Asked,
) -> Turn
    requires { Able (world t tables.old store.old out.old) × (n ≤ payload_size) }
    ensures { world result tables.new store.new out.new ≡ present (world t tables.old store.old out.old) at n a }
{
    let core = t.core;
    let counts = core.counts;
    let format = link_payload::byte(store, n, 1);
    let size = format as usize;
    match a {
        Asked::Mtu(mtu) => link_answers::mtu_told(t, tables, store, at, n, mtu),
        Asked::Services(g) => {
            link_discovery::services_heard(t, tables, store, out, at, g, n, size)
        }
        Asked::Characteristics(uuid) => {
            let x = words_service::find_service(tables, counts.services, uuid);
            link_discovery::characteristics_heard(t, tables, store, out, at, n, size, x)
        }
        Asked::Descriptors(uuid) => {
            let x = words_service::find_service(tables, counts.services, uuid);
            link_discovery::descriptors_heard(t, tables, store, out, at, n, format, x)
        }
        Asked::Written => link_answers::written(t, tables, store, at, n),
        Asked::Value => link_answers::value_read(t, tables, store, at, n),
        Asked::Nothing => t,
    }
}

// A response to the running step's request.
fn taken(
    t: Turn,
    tables: &mut [u64; 1152],
    store: &mut [u8],
    out: &mut [u8],
    at: Micros,
    n: usize,
) -> Turn
    requires { Able (world t tables.old store.old out.old) × (n ≤ payload_size) }
    ensures { world result tables.new store.new out.new ≡ taken (world t tables.old store.old out.old) at n }
{
    let core = t.core;
    let running = core.running;
    let step = running.step;
    if running.active {
        let a = link_questions::asked_by(step, running.phase);
        let opcode = link_payload::byte(store, n, 0);
        if opcode == op::ERROR_RSP {
            let code = link_payload::byte(store, n, 4);
            return failed(t, tables, store, out, at, code, a);
        }
        return present(t, tables, store, out, at, n, a);
    }
    t
}

// A response of n bytes is there: it counts if it answers the request that is awaited.
pub fn on_response(
    t: Turn,
    tables: &mut [u64; 1152],
    store: &mut [u8],
    out: &mut [u8],
    at: Micros,
    n: usize,
) -> Turn
    requires { Reads n (world t tables.old store.old out.old) }
    ensures { world result tables.new store.new out.new ≡ on_response (world t tables.old store.old out.old) at n }
{
    let core = t.core;
    let bearer = core.bearer;
    let link = bearer.link;
    if link_fields::counts(link.pending, store, n) {
        let u = link_answers::unask(t);
        return taken(u, tables, store, out, at, n);
    }
    t
}
