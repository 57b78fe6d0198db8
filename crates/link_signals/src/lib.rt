// What goes back to the peer on the signaling and security manager channels, and for a request that is not served.
#![tactic(auto)]

ghost use Rattle.std.specs.Prelude.{◌≡◌, List, ℕ, ◌+◌, ◌≤◌, ◌<◌, length};
ghost use Rattle.lists.specs.Blocks.{bytes};
ghost use Rattle.script_rules.specs.World.{told};
ghost use Rattle.script_rules.specs.Send.{Room};
ghost use Rattle.link_rules.specs.Payload.{payload_at};
ghost use Rattle.link_rules.specs.Replies.{reply, asks_update, on_signaling, on_smp, refuse};

use l2cap_params::Parameters;
use link_payload::PAYLOAD_AT;
use state::{LinkRequest, Sent};

// What goes back, where anything does.
fn reply<const N: usize>(sent: Sent, out: &mut [u8], channel: u16, answer: Option<[u8; N]>) -> Sent
    requires { Room sent (length out.old) N }
    ensures { told result out.new ≡ reply (told sent out.old) channel answer.entry }
{
    match answer {
        None => sent,
        Some(bytes) => script_sends::send(sent, out, channel, &bytes),
    }
}

// Parameters that are good are for the link layer too.
fn ask_update(sent: Sent, update: Option<Parameters>) -> Sent
    ensures { (o : List ℕ) → told result o ≡ asks_update (told sent o) update }
{
    match update {
        None => sent,
        Some(taken) => Sent {
            frames: sent.frames,
            bytes: sent.bytes,
            request: Some(LinkRequest::Update {
                interval: taken.interval,
                latency: taken.latency,
                timeout: taken.timeout,
            }),
        },
    }
}

// A payload of n bytes of the signaling channel.
pub fn on_signaling(sent: Sent, out: &mut [u8], store: &[u8], n: usize) -> Sent
    requires { Room sent (length out.old) 6 × (payload_at + n ≤ length store.now) }
    ensures { told result out.new ≡ on_signaling (told sent out.old) (bytes store.now payload_at n) }
{
    let end = PAYLOAD_AT + n;
    let answer = l2cap_signaling::on_signaling(&store[PAYLOAD_AT..end]);
    let told = reply(sent, out, l2cap::cid::SIGNALING, answer.reply);
    ask_update(told, answer.update)
}

// A payload of n bytes of the security manager channel.
pub fn on_smp(sent: Sent, out: &mut [u8], store: &[u8], n: usize) -> Sent
    requires { Room sent (length out.old) 2 × (payload_at + n ≤ length store.now) }
    ensures { told result out.new ≡ on_smp (told sent out.old) (bytes store.now payload_at n) }
{
    let end = PAYLOAD_AT + n;
    let answer = l2cap_signaling::on_smp(&store[PAYLOAD_AT..end]);
    reply(sent, out, l2cap::cid::SMP, answer)
}

// None is served.
pub fn refuse(sent: Sent, out: &mut [u8], opcode: u8, handle: u16, code: u8) -> Sent
    requires { Room sent (length out.old) 5 }
    ensures { told result out.new ≡ refuse (told sent out.old) opcode handle code }
{
    let pdu = att_pdu::att_error(opcode, handle, code);
    script_sends::send(sent, out, l2cap::cid::ATT, &pdu)
}
