// Fields of bits, written into bytes.
ghost use Rattle.std.specs.Prelude.{◌++◌, ℕ, ◌+◌, ◌<◌, ◌≤◌, length};
ghost use Rattle.std.specs.Int.{bytes_high_first};
ghost use Rattle.rules.specs.Bits.{bits, bytes_of};
ghost use Rattle.bits.specs.Write.{Wrote};

// The last N bytes of v, at byte at. Each call knows its N, so that it stores them and calls no copy.
#[tactic(auto, using(crate::proofs::WriteLaws::wrote_last))]
fn put<const N: usize>(a: &mut [u8], at: usize, v: u32)
    requires { (N ≤ 4) × (at + N ≤ length a.old) }
    ensures { Wrote a.old at (bytes_high_first N v) a.new }
{
    a[at..at + N].copy_from_slice(&v.to_be_bytes()[4 - N..]);
}

// 16 bits at byte at.
#[tactic(auto, using(crate::proofs::WriteLaws::bytes_of_16))]
pub fn put16(a: &mut [u8], at: usize, v: u32)
    requires { at + 2 ≤ length a.old }
    ensures { Wrote a.old at (bytes_of (bits 16 v)) a.new }
{
    put::<2>(a, at, v);
}

// 32 bits at byte at.
#[tactic(auto, using(crate::proofs::WriteLaws::bytes_of_32))]
pub fn put32(a: &mut [u8], at: usize, v: u32)
    requires { at + 4 ≤ length a.old }
    ensures { Wrote a.old at (bytes_of (bits 32 v)) a.new }
{
    put::<4>(a, at, v);
}

// Two numbers of 12 bits at byte at.
#[tactic(auto, using(crate::proofs::WriteLaws::bytes_of_pair))]
pub fn put_pair(a: &mut [u8], at: usize, x: u32, y: u32)
    requires { (at + 3 ≤ length a.old) × (x < 4096) × (y < 4096) }
    ensures { Wrote a.old at (bytes_of (bits 12 x ++ bits 12 y)) a.new }
{
    put::<3>(a, at, x << 12 | y);
}

// A last number of 12 bits at byte at, and zero bits.
#[tactic(auto, using(crate::proofs::WriteLaws::bytes_of_last))]
pub fn put_last(a: &mut [u8], at: usize, v: u32)
    requires { (at + 2 ≤ length a.old) × (v < 4096) }
    ensures { Wrote a.old at (bytes_of (bits 12 v)) a.new }
{
    put::<2>(a, at, v << 4);
}
