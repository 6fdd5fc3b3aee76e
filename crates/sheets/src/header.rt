// The header: the first 16 bytes of a sheet, and where the lists begin and end that it speaks of.
ghost use Rattle.std.specs.Prelude.{◌≡◌, ℕ, ◌≤◌, length};
ghost use Rattle.rules.specs.Bits.{bits_of};
ghost use Rattle.rules.specs.Sheets.{header_in, near_at as near_of, alpha_at as alpha_of, end_at as end_of, answer_length};
ghost use Rattle.sheets.specs.Sheet.{header_of, Narrow};

use bits::read::{read32, read64};

// The step is a number and no kind yet: a sheet may hold 3, which is refused. The stop flag is a number and no bool: a caller's header may hold any.
// That its sizes are Narrow is asked where it is needed, and is no ghost field: head_check takes any header.
#[derive(Clone, Copy, PartialEq, Eq, Debug)]
pub struct Header {
    pub version: u32,
    pub step: u32,
    pub stop: u32,
    pub n: usize,
    pub k: usize,
    pub ka: usize,
    pub spare: u32,
    pub budget: u32,
    pub seed: u64,
}

impl Header {
    // Version 4, step kind 2, stop flag 1, n 13, k 5, ka 3, spare 4; budget 32; seed 64.
    pub fn read(s: &[u8]) -> Header
        requires { 16 ≤ length s.now }
        ensures { header_of result ≡ header_in (bits_of s.now) }
    {
        let v = read32(s, 0);
        Header {
            version: v >> 28,
            step: v >> 26 & 0x3,
            stop: v >> 25 & 0x1,
            n: (v >> 12 & 0x1fff) as usize,
            k: (v >> 7 & 0x1f) as usize,
            ka: (v >> 4 & 0x7) as usize,
            spare: v & 0xf,
            budget: read32(s, 4),
            seed: read64(s, 8),
        }
    }

    // Where the near list begins, in bits.
    #[tactic(auto, unfolding(rules::specs::Sheets::near_at))]
    pub fn near_at(self) -> usize
        requires { Narrow (header_of self) }
        ensures { result ≡ near_of (header_of self) }
    {
        128 + 8 * (self.n * (self.n - 1))
    }

    // Where the alpha list begins, in bits.
    #[tactic(auto, unfolding(rules::specs::Sheets::near_at, rules::specs::Sheets::alpha_at))]
    pub fn alpha_at(self) -> usize
        requires { Narrow (header_of self) }
        ensures { result ≡ alpha_of (header_of self) }
    {
        self.near_at() + 12 * (self.n * self.k)
    }

    // Where the lists end, in bits.
    #[tactic(auto, unfolding(rules::specs::Sheets::near_at, rules::specs::Sheets::alpha_at, rules::specs::Sheets::end_at))]
    pub fn end_at(self) -> usize
        requires { Narrow (header_of self) }
        ensures { result ≡ end_of (header_of self) }
    {
        self.alpha_at() + 12 * (self.n * self.ka)
    }

    // How many bytes its answer takes.
    #[tactic(auto, unfolding(rules::specs::Sheets::answer_length))]
    pub fn answer_len(self) -> usize
        requires { Narrow (header_of self) }
        ensures { result ≡ answer_length self.n }
    {
        16 + (12 * self.n).div_ceil(8)
    }
}
