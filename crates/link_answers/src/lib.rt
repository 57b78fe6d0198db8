// What a response does in one move: it is awaited no more, or it ends its step.
#![tactic(auto)]

ghost use Rattle.std.specs.Prelude.{◌≡◌, List, ℕ, ◌≤◌, eqb, length, get_or};
ghost use Rattle.bytes_base.specs.Bytes.{le_at};
ghost use Rattle.bytes_base.specs.Choice.{pick};
ghost use Rattle.state_places.specs.Sizes.{store_size, most_results, most_characteristics};
ghost use Rattle.lists.specs.Blocks.{bytes};
ghost use Rattle.att_pdu.specs.Numbers.{op_read_rsp, op_write_rsp};
ghost use Rattle.state.specs.declared.StepStatus.TheVariants.{Ok};
ghost use Rattle.script_rules.specs.World.{Told};
ghost use Rattle.link_rules.specs.Payload.{payload_at, payload_size, with_mtu};
ghost use Rattle.link_rules.specs.Answers.{smaller_mtu};
ghost use Rattle.link_rules.specs.Moves.{over, become, value_read, after_range, unasked};
ghost use Rattle.state_core.specs.Reading.{central, held, world};

use att_pdu::op;
use gatt_services::Service;
use state::StepStatus;
use state_core::{Core, Turn};
use time::Micros;

// A read's value stands behind the opcode.
const VALUE_AT: usize = link_payload::PAYLOAD_AT + 1;

// No response is awaited any more.
pub fn unask(t: Turn) -> Turn
    ensures { (w s o : List ℕ) → world result w s o ≡ become (world t w s o) (unasked (central t.core w)) }
{
    let mut core = t.core;
    let sent = t.sent;
    let bearer = core.bearer;
    let heard = link_record::answered(bearer);
    core.bearer = heard;
    Turn { core, sent }
}

// The handle after the range that was asked for. 65,536 is past all handles.
pub fn after_range(c: Core, tables: &[u64; 1152], svc: Service) -> u32
    requires { c.counts.characteristics ≤ most_characteristics }
    ensures { (s : List ℕ) (x : Told) → result ≡ after_range (record { held = held c tables.now s; told = x }) svc }
{
    let counts = c.counts;
    let running = c.running;
    let known = counts.characteristics;
    match words_characteristic::descriptor_range(
        tables,
        known,
        svc.start,
        svc.end,
        running.cursor,
    ) {
        None => svc.end as u32 + 1,
        Some((_, to)) => to as u32 + 1,
    }
}

// ---- a step ends

// The link has the smaller of both MTUs.
pub fn mtu_told(
    t: Turn,
    tables: &mut [u64; 1152],
    store: &mut [u8],
    at: Micros,
    n: usize,
    mtu: u16,
) -> Turn
    requires { (length store.old ≡ store_size) × (t.core.counts.results ≤ most_results) × (n ≤ payload_size) }
    ensures { (o : List ℕ) → world result tables.new store.new o
        ≡ over
        (become (world t tables.old store.old o)
        (with_mtu (central t.core tables.old) (smaller_mtu (le_at 2 (bytes store.old payload_at n) 1) mtu)))
        at Ok }
{
    let mut core = t.core;
    let sent = t.sent;
    let bearer = core.bearer;
    let server = link_payload::number(store, n, 1);
    core.bearer = link_record::agreed(bearer, link_fields::smaller_mtu(server, mtu));
    let u = Turn { core, sent };
    script_turns::end_turn(u, tables, store, at, StepStatus::Ok)
}

// A write is done.
pub fn written(t: Turn, tables: &mut [u64; 1152], store: &mut [u8], at: Micros, n: usize) -> Turn
    requires { (length store.old ≡ store_size) × (t.core.counts.results ≤ most_results) × (n ≤ payload_size) }
    ensures { (o : List ℕ) → world result tables.new store.new o
        ≡ pick (eqb (get_or (bytes store.old payload_at n) 0 0) op_write_rsp)
        (over (world t tables.old store.old o) at Ok)
        (world t tables.old store.old o) }
{
    let opcode = link_payload::byte(store, n, 0);
    if opcode == op::WRITE_RSP {
        return script_turns::end_turn(t, tables, store, at, StepStatus::Ok);
    }
    t
}

// A read's value: the body behind the opcode.
pub fn value_read(t: Turn, tables: &mut [u64; 1152], store: &mut [u8], at: Micros, n: usize) -> Turn
    requires { (length store.old ≡ store_size) × (t.core.counts.results ≤ most_results) × (n ≤ payload_size) }
    ensures { (o : List ℕ) → world result tables.new store.new o
        ≡ pick (eqb (get_or (bytes store.old payload_at n) 0 0) op_read_rsp)
        (value_read (world t tables.old store.old o) at n)
        (world t tables.old store.old o) }
{
    let opcode = link_payload::byte(store, n, 0);
    if opcode == op::READ_RSP {
        let len = (n - 1) as u8;
        return script_turns::finish_turn(t, tables, store, at, StepStatus::Ok, VALUE_AT, len);
    }
    t
}
