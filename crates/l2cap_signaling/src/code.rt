// Codes of signaling packets, Core Vol 3 Part A 4.
// Kept: numbers, since a code is a byte that the peer sends, and most of them have no name here.
pub const COMMAND_REJECT_RSP: u8 = 0x01;

pub const DISCONNECTION_RSP: u8 = 0x07;

pub const PARAMETER_UPDATE_REQ: u8 = 0x12;

pub const PARAMETER_UPDATE_RSP: u8 = 0x13;

pub const LE_CREDIT_CONNECTION_RSP: u8 = 0x15;

pub const FLOW_CONTROL_CREDIT_IND: u8 = 0x16;

pub const CREDIT_CONNECTION_RSP: u8 = 0x18;

pub const CREDIT_RECONFIGURE_RSP: u8 = 0x1A;
