// Discovery's answers: services, then the characteristics of a service, then their descriptors.
#![tactic(auto)]

// Kept: the walks of services and of characteristics are two and not one generic function: another handle ends each, another phase follows,
// and each has definitions of its own (services_found, characteristics_found) that the theorems name, so a trait would need a method a line.

ghost use Rattle.std.specs.Prelude.{◌≡◌, ◌≤◌, Some};
ghost use Rattle.link_rules.specs.Payload.{payload_size};
ghost use Rattle.link_rules.specs.Able.{Able};
ghost use Rattle.link_rules.specs.Services.{walk_into, services_done, services_heard};
ghost use Rattle.link_rules.specs.Characteristics.{characteristics_heard, characteristics_done, go_on, descriptors_heard, range_done};
ghost use Rattle.state_core.specs.Reading.{world};
ghost use Rattle.link_discovery.specs.Entered.{services_entered, characteristics_entered};

use gatt_services::Service;
use link_questions::Goal;
use state::StepStatus;
use state_core::Turn;
use time::Micros;

// The least entry of services: two handles and a UUID of two bytes.
const SERVICE_SIZE: usize = 6;

// The least entry of characteristics: two handles, the properties between them, and a UUID of two bytes.
const CHARACTERISTIC_SIZE: usize = 7;

// ---- services

// The characteristics of a service are next.
fn walk_into(
    t: Turn,
    tables: &mut [u64; 1152],
    store: &mut [u8],
    out: &mut [u8],
    at: Micros,
    x: Option<Service>,
) -> Turn
    requires { Able (world t tables.old store.old out.old) }
    ensures { world result tables.new store.new out.new ≡ walk_into (world t tables.old store.old out.old) at x }
{
    match x {
        None => script_turns::end_turn(t, tables, store, at, StepStatus::NotFound),
        Some(svc) => {
            let start = svc.start;
            script_discovery::discover_characteristics(t, tables, store, out, at, svc, start)
        }
    }
}

// All services are known.
pub fn services_done(
    t: Turn,
    tables: &mut [u64; 1152],
    store: &mut [u8],
    out: &mut [u8],
    at: Micros,
    g: Goal,
) -> Turn
    requires { Able (world t tables.old store.old out.old) }
    ensures { world result tables.new store.new out.new ≡ services_done (world t tables.old store.old out.old) at g }
{
    match g {
        Goal::All => script_turns::end_turn(t, tables, store, at, StepStatus::Ok),
        Goal::Of(uuid) => {
            let core = t.core;
            let counts = core.counts;
            let x = words_service::find_service(tables, counts.services, uuid);
            walk_into(t, tables, store, out, at, x)
        }
    }
}

// The entries stand in the table: continue or finish, by the last of them. A service that ends at the last handle is the last.
fn services_entered(
    t: Turn,
    tables: &mut [u64; 1152],
    store: &mut [u8],
    out: &mut [u8],
    at: Micros,
    g: Goal,
    last: u16,
    full: bool,
) -> Turn
    requires { Able (world t tables.old store.old out.old) }
    ensures { world result tables.new store.new out.new ≡ services_entered (world t tables.old store.old out.old) at g last full }
{
    if full {
        return script_turns::end_turn(t, tables, store, at, StepStatus::TableFull);
    }
    if last == att_pdu::LAST_HANDLE {
        return services_done(t, tables, store, out, at, g);
    }
    script_discovery::discover_services(t, out, at, last + 1)
}

// Entries of size bytes: start, end, UUID.
pub fn services_heard(
    t: Turn,
    tables: &mut [u64; 1152],
    store: &mut [u8],
    out: &mut [u8],
    at: Micros,
    g: Goal,
    n: usize,
    size: usize,
) -> Turn
    requires { Able (world t tables.old store.old out.old) × (n ≤ payload_size) }
    ensures { world result tables.new store.new out.new ≡ services_heard (world t tables.old store.old out.old) at g n size }
{
    if size < SERVICE_SIZE {
        return services_done(t, tables, store, out, at, g);
    }
    let mut core = t.core;
    let mut counts = core.counts;
    let sent = t.sent;
    let end = link_fields::entries_end(n);
    let f = words_service::take_services(
        tables,
        counts.services,
        store,
        link_fields::ENTRIES_AT,
        end,
        size,
    );
    counts.services = f.count;
    core.counts = counts;
    let u = Turn { core, sent };
    services_entered(u, tables, store, out, at, g, f.last, f.full)
}

// ---- characteristics

// The entries stand in the table: continue or finish. A declaration at the service's end, or past it, is the last.
fn characteristics_entered(
    t: Turn,
    tables: &mut [u64; 1152],
    store: &mut [u8],
    out: &mut [u8],
    at: Micros,
    svc: Service,
    last: u16,
    full: bool,
) -> Turn
    requires { Able (world t tables.old store.old out.old) }
    ensures { world result tables.new store.new out.new
        ≡ characteristics_entered (world t tables.old store.old out.old) at svc last full }
{
    if full {
        return script_turns::end_turn(t, tables, store, at, StepStatus::TableFull);
    }
    if svc.end <= last {
        let start = svc.start;
        return script_discovery::discover_descriptors(t, tables, store, out, at, svc, start);
    }
    script_discovery::discover_characteristics(t, tables, store, out, at, svc, last + 1)
}

// Entries of size bytes: declaration, properties, value handle, UUID.
fn characteristics_in(
    t: Turn,
    tables: &mut [u64; 1152],
    store: &mut [u8],
    out: &mut [u8],
    at: Micros,
    n: usize,
    size: usize,
    svc: Service,
) -> Turn
    requires { Able (world t tables.old store.old out.old) × (n ≤ payload_size) }
    ensures { world result tables.new store.new out.new
        ≡ characteristics_heard (world t tables.old store.old out.old) at n size (Some svc) }
{
    if size < CHARACTERISTIC_SIZE {
        let start = svc.start;
        return script_discovery::discover_descriptors(t, tables, store, out, at, svc, start);
    }
    let mut core = t.core;
    let mut counts = core.counts;
    let sent = t.sent;
    let end = link_fields::entries_end(n);
    let f = words_characteristic::take_characteristics(
        tables,
        counts.characteristics,
        store,
        link_fields::ENTRIES_AT,
        end,
        size,
        svc.end,
    );
    counts.characteristics = f.count;
    core.counts = counts;
    let u = Turn { core, sent };
    characteristics_entered(u, tables, store, out, at, svc, f.last, f.full)
}

// By the service that the step names.
pub fn characteristics_heard(
    t: Turn,
    tables: &mut [u64; 1152],
    store: &mut [u8],
    out: &mut [u8],
    at: Micros,
    n: usize,
    size: usize,
    x: Option<Service>,
) -> Turn
    requires { Able (world t tables.old store.old out.old) × (n ≤ payload_size) }
    ensures { world result tables.new store.new out.new ≡ characteristics_heard (world t tables.old store.old out.old) at n size x }
{
    match x {
        None => script_turns::end_turn(t, tables, store, at, StepStatus::NotFound),
        Some(svc) => characteristics_in(t, tables, store, out, at, n, size, svc),
    }
}

// There are no more: the descriptors are next.
pub fn characteristics_done(
    t: Turn,
    tables: &mut [u64; 1152],
    store: &mut [u8],
    out: &mut [u8],
    at: Micros,
    x: Option<Service>,
) -> Turn
    requires { Able (world t tables.old store.old out.old) }
    ensures { world result tables.new store.new out.new ≡ characteristics_done (world t tables.old store.old out.old) at x }
{
    match x {
        None => script_turns::end_turn(t, tables, store, at, StepStatus::NotFound),
        Some(svc) => {
            let start = svc.start;
            script_discovery::discover_descriptors(t, tables, store, out, at, svc, start)
        }
    }
}

// ---- descriptors

// Within the service there may be more.
fn go_on(
    t: Turn,
    tables: &mut [u64; 1152],
    store: &mut [u8],
    out: &mut [u8],
    at: Micros,
    svc: Service,
    from: u32,
) -> Turn
    requires { Able (world t tables.old store.old out.old) }
    ensures { world result tables.new store.new out.new ≡ go_on (world t tables.old store.old out.old) at svc from }
{
    let end = svc.end as u32;
    if from <= end {
        let handle = from as u16;
        return script_discovery::discover_descriptors(t, tables, store, out, at, svc, handle);
    }
    script_turns::end_turn(t, tables, store, at, StepStatus::Ok)
}

// Entries of handles and types, by their format.
fn descriptors_in(
    t: Turn,
    tables: &mut [u64; 1152],
    store: &mut [u8],
    out: &mut [u8],
    at: Micros,
    n: usize,
    format: u8,
    svc: Service,
) -> Turn
    requires { Able (world t tables.old store.old out.old) × (n ≤ payload_size) }
    ensures { world result tables.new store.new out.new
        ≡ descriptors_heard (world t tables.old store.old out.old) at n format (Some svc) }
{
    let size = link_fields::width_of(format);
    let core = t.core;
    let counts = core.counts;
    let first = link_answers::after_range(core, tables, svc);
    if size == 0 {
        return go_on(t, tables, store, out, at, svc, first);
    }
    let end = link_fields::entries_end(n);
    let next = words_characteristic::name_descriptors(
        tables,
        counts.characteristics,
        store,
        link_fields::ENTRIES_AT,
        end,
        size,
        first,
    );
    go_on(t, tables, store, out, at, svc, next)
}

// By the service that the step names.
pub fn descriptors_heard(
    t: Turn,
    tables: &mut [u64; 1152],
    store: &mut [u8],
    out: &mut [u8],
    at: Micros,
    n: usize,
    format: u8,
    x: Option<Service>,
) -> Turn
    requires { Able (world t tables.old store.old out.old) × (n ≤ payload_size) }
    ensures { world result tables.new store.new out.new ≡ descriptors_heard (world t tables.old store.old out.old) at n format x }
{
    match x {
        None => script_turns::end_turn(t, tables, store, at, StepStatus::NotFound),
        Some(svc) => descriptors_in(t, tables, store, out, at, n, format, svc),
    }
}

// There are no more in the range that was asked for.
pub fn range_done(
    t: Turn,
    tables: &mut [u64; 1152],
    store: &mut [u8],
    out: &mut [u8],
    at: Micros,
    x: Option<Service>,
) -> Turn
    requires { Able (world t tables.old store.old out.old) }
    ensures { world result tables.new store.new out.new ≡ range_done (world t tables.old store.old out.old) at x }
{
    match x {
        None => script_turns::end_turn(t, tables, store, at, StepStatus::NotFound),
        Some(svc) => {
            let core = t.core;
            let from = link_answers::after_range(core, tables, svc);
            go_on(t, tables, store, out, at, svc, from)
        }
    }
}
