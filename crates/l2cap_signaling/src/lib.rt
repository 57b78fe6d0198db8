// What a central answers on the signaling and security manager channels.
#![tactic(auto)]

ghost use Rattle.std.specs.Prelude.{◌≡◌};
ghost use Rattle.bytes_base.specs.Bytes.{le_bytes};
ghost use Rattle.l2cap_signaling.specs.Answer.{command, silence, rejection, parameter_request, code_answer, signaling_answer, smp_answer};

pub mod code;

use l2cap_params::{Parameters, Request};

// Data bytes of every answer on the signaling channel: a reason or a result.
const DATA: u8 = 2;

// Command reject: the command is not understood.
const NOT_UNDERSTOOD: u16 = 0x0000;

const ACCEPTED: u16 = 0x0000;

const REJECTED: u16 = 0x0001;

// Bytes of a whole connection parameter update request.
const PARAMETER_REQ_LEN: usize = 12;

// Pairing failed, and why: pairing is not supported.
const PAIRING_FAILED: u8 = 0x05;

const PAIRING_NOT_SUPPORTED: u8 = 0x05;

// What goes back on the signaling channel, if anything does, and the parameters that the link layer is to take, if there are any.
#[derive(Clone, Copy)]
pub struct SignalingAnswer {
    pub reply: Option<[u8; 6]>,
    pub update: Option<Parameters>,
}

fn command(code: u8, id: u8, number: u16) -> [u8; 6]
    ensures { result ≡ command code id (le_bytes 2 number) }
{
    [
        code,
        id,
        DATA,
        0,
        bytes_halves::lo(number),
        bytes_halves::hi(number),
    ]
}

fn silence() -> SignalingAnswer
    ensures { result ≡ silence }
{
    SignalingAnswer {
        reply: None,
        update: None,
    }
}

fn rejection(id: u8) -> SignalingAnswer
    ensures { result ≡ rejection id }
{
    let reject = command(code::COMMAND_REJECT_RSP, id, NOT_UNDERSTOOD);
    SignalingAnswer {
        reply: Some(reject),
        update: None,
    }
}

// The answer to a connection parameter update request that is whole.
fn parameter_answer(id: u8, pdu: &[u8]) -> SignalingAnswer
    ensures { result ≡ parameter_request id pdu.now }
{
    let request = Request {
        min: bytes_numbers::le16(pdu, 4),
        max: bytes_numbers::le16(pdu, 6),
        latency: bytes_numbers::le16(pdu, 8),
        timeout: bytes_numbers::le16(pdu, 10),
    };
    if request.is_good() {
        let accepted = command(code::PARAMETER_UPDATE_RSP, id, ACCEPTED);
        // The central takes the longest interval that the peripheral allows.
        let update = Parameters {
            interval: request.max,
            latency: request.latency,
            timeout: request.timeout,
        };
        return SignalingAnswer {
            reply: Some(accepted),
            update: Some(update),
        };
    }
    let rejected = command(code::PARAMETER_UPDATE_RSP, id, REJECTED);
    SignalingAnswer {
        reply: Some(rejected),
        update: None,
    }
}

fn on_code(code: u8, id: u8, pdu: &[u8]) -> SignalingAnswer
    ensures { result ≡ code_answer code id pdu.now }
{
    match code {
        code::PARAMETER_UPDATE_REQ => {
            if PARAMETER_REQ_LEN <= pdu.len() {
                parameter_answer(id, pdu)
            } else {
                rejection(id)
            }
        }
        code::COMMAND_REJECT_RSP
        | code::DISCONNECTION_RSP
        | code::PARAMETER_UPDATE_RSP
        | code::LE_CREDIT_CONNECTION_RSP
        | code::FLOW_CONTROL_CREDIT_IND
        | code::CREDIT_CONNECTION_RSP
        | code::CREDIT_RECONFIGURE_RSP => silence(),
        _ => rejection(id),
    }
}

// What a payload of the signaling channel is answered with.
pub fn on_signaling(pdu: &[u8]) -> SignalingAnswer
    ensures { result ≡ signaling_answer pdu.now }
{
    if pdu.len() < 2 {
        return silence();
    }
    on_code(pdu[0], pdu[1], pdu)
}

// What goes back for a payload of the security manager channel, if anything does.
pub fn on_smp(pdu: &[u8]) -> Option<[u8; 2]>
    ensures { result ≡ smp_answer pdu.now }
{
    if 0 < pdu.len() {
        if pdu[0] != PAIRING_FAILED {
            return Some([PAIRING_FAILED, PAIRING_NOT_SUPPORTED]);
        }
    }
    None
}
