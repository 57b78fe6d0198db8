// UUIDs (Core Vol 3 Part B 2.5.1), and the bytes that ATT carries for them (Part F 3.2.1).
#![tactic(auto)]

ghost use Rattle.std.specs.Prelude.{◌≡◌, ◌+◌, ◌≤◌};
ghost use Rattle.std.proofs.Math.Seq.{paste};
ghost use Rattle.bytes_base.specs.Bytes.{le_at, le_bytes};
ghost use Rattle.uuid_value.specs.Value.{num, of_num, short_of, att_uuid, att_of};

// A UUID of 128 bits as two numbers: its value is low + 2^64 * high.
#[derive(Clone, Copy, PartialEq, Eq)]
pub struct Uuid {
    pub low: u64,
    pub high: u64,
}

// The bytes of a UUID as ATT carries them: the first len of bytes. The rest is zero.
// Kept: a length beside its bytes, since an answer by value has a fixed size and the library uses no heap.
#[derive(Clone, Copy)]
pub struct Att {
    pub len: usize,
    pub bytes: [u8; 16],
}

// The halves of the Base UUID, 00000000-0000-1000-8000-00805F9B34FB.
const BASE_LOW: u64 = 0x8000_0080_5F9B_34FB;

const BASE_HIGH: u64 = 0x1000;

// A 16-bit or 32-bit UUID stands above the Base UUID's 96 bits: at this place of the high half.
const SHORT_PLACE: u64 = 0x1_0000_0000;

// 16-bit UUIDs are below this.
const SHORT_END: u64 = 0x1_0000;

// Bytes of a 16-bit UUID, of half a UUID, and of a whole one.
const SHORT_LEN: usize = 2;

const HALF_LEN: usize = 8;

const LONG_LEN: usize = 16;

impl From<u16> for Uuid {
    ghost from_gives = { λ v u. u ≡ short_of v };

    fn from(v: u16) -> Self {
        Uuid::from(v as u32)
    }
}

// The AD types 04 and 05 list 32-bit UUIDs (Core Supplement Part A 1.1).
impl From<u32> for Uuid {
    ghost from_gives = { λ v u. u ≡ short_of v };

    fn from(v: u32) -> Self {
        let high = (v as u64) * SHORT_PLACE + BASE_HIGH;
        Self {
            low: BASE_LOW,
            high,
        }
    }
}

impl Uuid {
    // From the 16 bytes of s at a place. Zero where s has fewer there.
    pub fn from_128(s: &[u8], at: usize) -> Self
        ensures { result ≡ of_num (le_at 16 s.now at) }
    {
        if LONG_LEN <= s.len() && at <= s.len() - LONG_LEN {
            return Self {
                low: bytes_numbers::le64(s, at),
                high: bytes_numbers::le64(s, at + HALF_LEN),
            };
        }
        Self { low: 0, high: 0 }
    }

    pub fn from_att(bytes: &[u8]) -> Option<Uuid>
        ensures { result ≡ att_uuid bytes.now }
    {
        match bytes.len() {
            SHORT_LEN => Some(Uuid::from(bytes_numbers::le16(bytes, 0))),
            LONG_LEN => Some(Uuid::from_128(bytes, 0)),
            _ => None,
        }
    }

    // 2 bytes for a Base UUID, else 16.
    pub fn to_att(self) -> Att
        ensures { result ≡ att_of (num self) }
    {
        let mut bytes = [0; LONG_LEN];
        let v = self.high / SHORT_PLACE;
        if self.low == BASE_LOW && self.high % SHORT_PLACE == BASE_HIGH && v < SHORT_END {
            bytes[..SHORT_LEN].copy_from_slice(&(v as u16).to_le_bytes());
            return Att {
                len: SHORT_LEN,
                bytes,
            };
        }
        bytes[..HALF_LEN].copy_from_slice(&self.low.to_le_bytes());
        bytes[HALF_LEN..].copy_from_slice(&self.high.to_le_bytes());
        Att {
            len: LONG_LEN,
            bytes,
        }
    }
}
