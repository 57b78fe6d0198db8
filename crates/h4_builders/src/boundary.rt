// Values of an ACL packet's boundary flag, Core Vol 4 Part E 5.4.2; 3 is of no use on an LE link.
// Kept: numbers, since `acl` writes and `acl_parts` tells any flag of 2 bits, 3 too, which has no name.
pub const FIRST_NON_FLUSHABLE: u8 = 0;

pub const CONTINUING: u8 = 1;

pub const FIRST_FLUSHABLE: u8 = 2;
