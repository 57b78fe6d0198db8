// Error codes of an ATT error response, Core Vol 3 Part F 3.4.1.1.
// Kept: numbers and no enum, since they are bytes of the wire, where any other may stand too.
pub const INVALID_HANDLE: u8 = 0x01;

pub const REQUEST_NOT_SUPPORTED: u8 = 0x06;

pub const ATTRIBUTE_NOT_FOUND: u8 = 0x0A;
