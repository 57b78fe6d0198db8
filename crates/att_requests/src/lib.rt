// ATT requests of a range of handles, each built whole.
#![tactic(auto)]

ghost use Rattle.std.specs.Prelude.{◌≡◌, ◌∷◌, ◌++◌};
ghost use Rattle.bytes_base.specs.Bytes.{le_bytes};
ghost use Rattle.att_pdu.specs.Pdu.{find_information_req, read_by_type_req, read_by_group_type_req};

use att_pdu::op;

// An opcode and a range of handles.
fn with_range(opcode: u8, start: u16, end: u16) -> [u8; 5]
    ensures { result ≡ opcode ∷ (le_bytes 2 start ++ le_bytes 2 end) }
{
    let [start_lo, start_hi] = start.to_le_bytes();
    let [end_lo, end_hi] = end.to_le_bytes();
    [opcode, start_lo, start_hi, end_lo, end_hi]
}

// An opcode, a range of handles and a type.
fn with_type(opcode: u8, start: u16, end: u16, uuid16: u16) -> [u8; 7]
    ensures { result ≡ opcode ∷ (le_bytes 2 start ++ (le_bytes 2 end ++ le_bytes 2 uuid16)) }
{
    let [opcode, start_lo, start_hi, end_lo, end_hi] = with_range(opcode, start, end);
    let [type_lo, type_hi] = uuid16.to_le_bytes();
    [opcode, start_lo, start_hi, end_lo, end_hi, type_lo, type_hi]
}

pub fn find_information_req(start: u16, end: u16) -> [u8; 5]
    ensures { result ≡ find_information_req start end }
{
    with_range(op::FIND_INFORMATION_REQ, start, end)
}

pub fn read_by_type_req(start: u16, end: u16, uuid16: u16) -> [u8; 7]
    ensures { result ≡ read_by_type_req start end uuid16 }
{
    with_type(op::READ_BY_TYPE_REQ, start, end, uuid16)
}

pub fn read_by_group_type_req(start: u16, end: u16, uuid16: u16) -> [u8; 7]
    ensures { result ≡ read_by_group_type_req start end uuid16 }
{
    with_type(op::READ_BY_GROUP_TYPE_REQ, start, end, uuid16)
}
