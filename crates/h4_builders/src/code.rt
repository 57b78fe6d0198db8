// Event codes, Core Vol 4 Part E 7.7.
// Kept: numbers, since `event` takes any code.
pub const COMMAND_COMPLETE: u8 = 0x0E;

pub const COMMAND_STATUS: u8 = 0x0F;

pub const NUMBER_OF_COMPLETED_PACKETS: u8 = 0x13;

pub const LE_META: u8 = 0x3E;
