// Opcodes of ATT PDUs, Core Vol 3 Part F 3.4.8.
// Kept: numbers and no enum, since they are bytes of the wire, where any other may stand too.
pub const ERROR_RSP: u8 = 0x01;

pub const EXCHANGE_MTU_REQ: u8 = 0x02;

pub const EXCHANGE_MTU_RSP: u8 = 0x03;

pub const FIND_INFORMATION_REQ: u8 = 0x04;

pub const FIND_INFORMATION_RSP: u8 = 0x05;

pub const FIND_BY_TYPE_VALUE_REQ: u8 = 0x06;

pub const READ_BY_TYPE_REQ: u8 = 0x08;

pub const READ_BY_TYPE_RSP: u8 = 0x09;

pub const READ_REQ: u8 = 0x0A;

pub const READ_RSP: u8 = 0x0B;

pub const READ_BLOB_REQ: u8 = 0x0C;

pub const READ_MULTIPLE_REQ: u8 = 0x0E;

pub const READ_BY_GROUP_TYPE_REQ: u8 = 0x10;

pub const READ_BY_GROUP_TYPE_RSP: u8 = 0x11;

pub const WRITE_REQ: u8 = 0x12;

pub const WRITE_RSP: u8 = 0x13;

pub const HANDLE_VALUE_NTF: u8 = 0x1B;

pub const HANDLE_VALUE_IND: u8 = 0x1D;

pub const HANDLE_VALUE_CFM: u8 = 0x1E;

pub const WRITE_CMD: u8 = 0x52;
