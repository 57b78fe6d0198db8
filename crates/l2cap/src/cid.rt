// Fixed channels of an LE-U link, Core Vol 3 Part A 2.1.
// Kept: numbers and no enum, since they are numbers of the wire, where any other may stand too.
pub const ATT: u16 = 0x0004;

pub const SIGNALING: u16 = 0x0005;

pub const SMP: u16 = 0x0006;
