// Fields of bits, read from bytes.
ghost use Rattle.std.specs.Prelude.{◌≡◌, ℕ, ◌+◌, ◌*◌, ◌%◌, ◌<◌, ◌≤◌, length, take, drop};
ghost use Rattle.bits.specs.Read.{Reads};

// The N bytes from byte q on.
fn bytes_at<const N: usize>(s: &[u8], q: usize) -> [u8; N]
    requires { q + N ≤ length s.now }
    ensures { result ≡ take N (drop q s.now) }
{
    let mut bytes = [0; N];
    bytes.copy_from_slice(&s[q..q + N]);
    bytes
}

// The 16 bits at byte q. There is a reader for each width, a line each: std's from_be_bytes is of no trait that one could be generic over.
pub fn read16(s: &[u8], q: usize) -> u16
    requires { q + 1 < length s.now }
    ensures { Reads s.now (8 * q) 16 result }
{
    u16::from_be_bytes(bytes_at(s, q))
}

// The 32 bits at byte q.
pub fn read32(s: &[u8], q: usize) -> u32
    requires { q + 3 < length s.now }
    ensures { Reads s.now (8 * q) 32 result }
{
    u32::from_be_bytes(bytes_at(s, q))
}

// The 64 bits at byte q.
pub fn read64(s: &[u8], q: usize) -> u64
    requires { q + 7 < length s.now }
    ensures { Reads s.now (8 * q) 64 result }
{
    u64::from_be_bytes(bytes_at(s, q))
}

// The 12 bits at bit p, a multiple of 4.
#[tactic(auto, using(crate::proofs::ReadLaws::read_12_even, crate::proofs::ReadLaws::read_12_odd))]
pub fn read12(s: &[u8], p: usize) -> u16
    requires { (p % 4 ≡ 0) × (p + 12 ≤ 8 * length s.now) }
    ensures { Reads s.now p 12 result }
{
    let v = read16(s, p / 8);
    if p % 8 == 0 { v / 16 } else { v % 4096 }
}
