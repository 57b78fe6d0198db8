// Numbers in bytes, the least significant first.
#![tactic(auto)]

ghost use Rattle.std.specs.Prelude.{◌≡◌, ◌+◌, Some, None, length, take, drop, leb};
ghost use Rattle.bytes_base.specs.Choice.{pick};
ghost use Rattle.bytes_base.specs.Bytes.{le_at};

// The N bytes from at on, or none where they are not there.
fn bytes_at<const N: usize>(s: &[u8], at: usize) -> Option<[u8; N]>
    ensures { result ≡ pick (leb (at + N) (length s.now)) (Some (take N (drop at s.now))) None }
{
    Some(*s.get(at..)?.first_chunk()?)
}

// The number in the 2 bytes from at on, or 0 where they are not there.
pub fn le16(s: &[u8], at: usize) -> u16
    ensures { result ≡ le_at 2 s.now at }
{
    match bytes_at::<2>(s, at) {
        Some(bytes) => u16::from_le_bytes(bytes),
        None => 0,
    }
}

// The number in the 4 bytes from at on, or 0 where they are not there.
pub fn le32(s: &[u8], at: usize) -> u32
    ensures { result ≡ le_at 4 s.now at }
{
    match bytes_at::<4>(s, at) {
        Some(bytes) => u32::from_le_bytes(bytes),
        None => 0,
    }
}

// The number in the 8 bytes from at on, or 0 where they are not there.
pub fn le64(s: &[u8], at: usize) -> u64
    ensures { result ≡ le_at 8 s.now at }
{
    match bytes_at::<8>(s, at) {
        Some(bytes) => u64::from_le_bytes(bytes),
        None => 0,
    }
}
