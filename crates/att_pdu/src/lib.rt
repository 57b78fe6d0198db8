// ATT PDUs of a fixed length, each built whole; those with a range of handles stand in att_requests. A PDU with a value is
// written where it goes: l2cap::att_frame.
#![tactic(auto)]

ghost use Rattle.std.specs.Prelude.{◌≡◌, ◌∷◌};
ghost use Rattle.bytes_base.specs.Bytes.{le_bytes};
ghost use Rattle.att_pdu.specs.Pdu.{
  att_error,
  exchange_mtu_req,
  exchange_mtu_rsp,
  read_req,
  confirmation,
};

pub mod err;
pub mod op;

// Core Vol 3 Part F 3.2.8: the ATT_MTU of a link on which none was exchanged, and the least that one may be.
pub const DEFAULT_MTU: u16 = 23;

// Core Vol 3 Part F 3.2.2: no handle is after this one.
pub const LAST_HANDLE: u16 = 0xFFFF;

// What an answer with entries leaves: the table after it, the handle of the last entry read, and whether an entry had no place.
#[derive(Clone, Copy)]
pub struct Found<T> {
    pub table: T,
    pub last: u16,
    pub full: bool,
}

// An opcode and one number.
fn with_number(opcode: u8, a: u16) -> [u8; 3]
    ensures { result ≡ opcode ∷ le_bytes 2 a }
{
    let [lo, hi] = a.to_le_bytes();
    [opcode, lo, hi]
}

pub fn att_error(request: u8, handle: u16, code: u8) -> [u8; 5]
    ensures { result ≡ att_error request handle code }
{
    let [lo, hi] = handle.to_le_bytes();
    [op::ERROR_RSP, request, lo, hi, code]
}

pub fn exchange_mtu_req(mtu: u16) -> [u8; 3]
    ensures { result ≡ exchange_mtu_req mtu }
{
    with_number(op::EXCHANGE_MTU_REQ, mtu)
}

pub fn exchange_mtu_rsp(mtu: u16) -> [u8; 3]
    ensures { result ≡ exchange_mtu_rsp mtu }
{
    with_number(op::EXCHANGE_MTU_RSP, mtu)
}

pub fn read_req(handle: u16) -> [u8; 3]
    ensures { result ≡ read_req handle }
{
    with_number(op::READ_REQ, handle)
}

pub fn confirmation() -> [u8; 1]
    ensures { result ≡ confirmation }
{
    [op::HANDLE_VALUE_CFM]
}
