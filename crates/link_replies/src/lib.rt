// What goes back to the peer for its MTU request, and what becomes of its notifications and indications.
#![tactic(auto)]

ghost use Rattle.std.specs.Prelude.{◌≡◌, List, ℕ, ◌≤◌, ◌<◌, max, min, length};
ghost use Rattle.state_places.specs.Sizes.{value_size};
ghost use Rattle.state_rules.specs.Steps.{default_mtu, most_mtu};
ghost use Rattle.state_rules.specs.Fit.{most_notified};
ghost use Rattle.script_rules.specs.World.{told};
ghost use Rattle.script_rules.specs.Send.{Room};
ghost use Rattle.link_rules.specs.Payload.{Reads};
ghost use Rattle.link_rules.specs.Replies.{exchange, keep_one, confirmed, notice};
ghost use Rattle.state_core.specs.Reading.{held, world};

use notifications::Notification;
use state::Sent;
use state_core::{Core, Turn};
use state_rules::MAX_MTU;
use time::Micros;

const VALUE_AT: usize = link_payload::PAYLOAD_AT + l2cap::ATT_HEAD;

// ---- the peer's requests

fn clamp(mtu: u16) -> u16
    ensures { result ≡ max default_mtu (min mtu most_mtu) }
{
    mtu.clamp(att_pdu::DEFAULT_MTU, MAX_MTU)
}

// The peer asks for an MTU: it gets ours, and its own holds.
pub fn exchange(t: Turn, out: &mut [u8], theirs: u16) -> Turn
    requires { Room t.sent (length out.old) 3 }
    ensures { (w s : List ℕ) → world result w s out.new ≡ exchange (world t w s out.old) theirs }
{
    let mut core = t.core;
    let sent = t.sent;
    let bearer = core.bearer;
    let pdu = att_pdu::exchange_mtu_rsp(MAX_MTU);
    let told = script_sends::send(sent, out, l2cap::cid::ATT, &pdu);
    core.bearer = link_record::agreed(bearer, clamp(theirs));
    Turn { core, sent: told }
}

// ---- notifications and indications

// A notification is kept with its value, the n bytes behind the opcode and the handle; all are counted.
fn keep_one(
    c: Core,
    tables: &mut [u64; 1152],
    store: &mut [u8],
    at: Micros,
    handle: u16,
    n: usize,
    indication: bool,
) -> Core
    requires { (n ≤ value_size) × (c.counters.notified < most_notified) }
    ensures { held result tables.new store.new ≡ keep_one (held c tables.old store.old) at handle n indication }
{
    let counters = c.counters;
    let mut counts = c.counts;
    let count = counts.notifications;
    notifications::keep_value(store, count, VALUE_AT, n);
    let len = n as u8;
    let one = Notification {
        at,
        handle,
        len,
        indication,
        link: counters.links,
    };
    let more = words_notification::keep(tables, count, one);
    counts.notifications = more;
    let mut o = c;
    o.counters = link_notices::note(counters);
    o.counts = counts;
    o
}

// An indication is confirmed.
fn confirm(sent: Sent, out: &mut [u8], indication: bool) -> Sent
    requires { Room sent (length out.old) 1 }
    ensures { told result out.new ≡ confirmed (told sent out.old) indication }
{
    if indication {
        let pdu = att_pdu::confirmation();
        return script_sends::send(sent, out, l2cap::cid::ATT, &pdu);
    }
    sent
}

// A payload of n bytes, an opcode and a handle at least: it is kept, and the running wait looks at it.
pub fn notice(
    t: Turn,
    tables: &mut [u64; 1152],
    store: &mut [u8],
    out: &mut [u8],
    at: Micros,
    n: usize,
    indication: bool,
) -> Turn
    requires { Reads n (world t tables.old store.old out.old) × (3 ≤ n) × (t.core.counters.notified < most_notified) }
    ensures { world result tables.new store.new out.new
        ≡ notice (world t tables.old store.old out.old) at n indication }
{
    let core = t.core;
    let sent = t.sent;
    let handle = link_payload::number(store, n, 1);
    let told = confirm(sent, out, indication);
    let kept = keep_one(
        core,
        tables,
        store,
        at,
        handle,
        n - l2cap::ATT_HEAD,
        indication,
    );
    let next = script_wait::check_wait(kept, tables, store, at);
    Turn {
        core: next,
        sent: told,
    }
}
