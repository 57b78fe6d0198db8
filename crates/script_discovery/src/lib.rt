// The first and the further requests of discovery: services, then characteristics, then descriptors.
#![tactic(auto)]

ghost use Rattle.std.specs.Prelude.{◌≡◌, List, ℕ, ◌≤◌, length};
ghost use Rattle.state_places.specs.Sizes.{most_characteristics};
ghost use Rattle.script_rules.specs.Send.{Room};
ghost use Rattle.script_rules.specs.Ready.{Ready};
ghost use Rattle.script_rules.specs.Discovery.{asking, discover_services, discover_descriptors, discover_characteristics};
ghost use Rattle.state_core.specs.Reading.{world};

use gatt_services::Service;
use state::StepStatus;
use state_core::Turn;
use time::Micros;

const PRIMARY_SERVICE: u16 = 0x2800;

const CHARACTERISTIC: u16 = 0x2803;

// Discovery's phases.
const SERVICES: u8 = 0;

const CHARACTERISTICS: u8 = 1;

const DESCRIPTORS: u8 = 2;

// What is asked for, and from which handle on.
fn ask_from(t: Turn, phase: u8, cursor: u16) -> Turn
    ensures { (w s o : List ℕ) → world result w s o ≡ asking (world t w s o) phase cursor }
{
    let mut core = t.core;
    let mut running = core.running;
    running.phase = phase;
    running.cursor = cursor;
    core.running = running;
    let sent = t.sent;
    Turn { core, sent }
}

// The services from a handle on.
pub fn discover_services(t: Turn, out: &mut [u8], at: Micros, from: u16) -> Turn
    requires { Room t.sent (length out.old) 7 }
    ensures { (w s : List ℕ) → world result w s out.new ≡ discover_services (world t w s out.old) at from }
{
    let pdu = att_requests::read_by_group_type_req(from, att_pdu::LAST_HANDLE, PRIMARY_SERVICE);
    let u = ask_from(t, SERVICES, from);
    script_turns::request(u, out, at, &pdu)
}

// The descriptors of a service from a handle on; the step is done where there are none to ask for.
pub fn discover_descriptors(
    t: Turn,
    tables: &mut [u64; 1152],
    store: &mut [u8],
    out: &mut [u8],
    at: Micros,
    svc: Service,
    from: u16,
) -> Turn
    requires { Ready 64 (world t tables.old store.old out.old) × (t.core.counts.characteristics ≤ most_characteristics) }
    ensures { world result tables.new store.new out.new
        ≡ discover_descriptors (world t tables.old store.old out.old) at svc from }
{
    let core = t.core;
    let counts = core.counts;
    let count = counts.characteristics;
    match words_characteristic::descriptor_range(tables, count, svc.start, svc.end, from) {
        None => script_turns::end_turn(t, tables, store, at, StepStatus::Ok),
        Some((start, end)) => {
            let pdu = att_requests::find_information_req(start, end);
            let u = ask_from(t, DESCRIPTORS, start);
            script_turns::request(u, out, at, &pdu)
        }
    }
}

// The characteristics of a service from a handle on; past its end, its descriptors.
pub fn discover_characteristics(
    t: Turn,
    tables: &mut [u64; 1152],
    store: &mut [u8],
    out: &mut [u8],
    at: Micros,
    svc: Service,
    from: u16,
) -> Turn
    requires { Ready 64 (world t tables.old store.old out.old) × (t.core.counts.characteristics ≤ most_characteristics) }
    ensures { world result tables.new store.new out.new
        ≡ discover_characteristics (world t tables.old store.old out.old) at svc from }
{
    let start = svc.start;
    let end = svc.end;
    if end < from {
        return discover_descriptors(t, tables, store, out, at, svc, start);
    }
    if from == 0 {
        return discover_descriptors(t, tables, store, out, at, svc, start);
    }
    let pdu = att_requests::read_by_type_req(from, end, CHARACTERISTIC);
    let u = ask_from(t, CHARACTERISTICS, from);
    script_turns::request(u, out, at, &pdu)
}
