// 01, "Sheets": the answer, written into lent bytes.

#![tactic(auto)]

ghost use Rattle.std.specs.Prelude.{ℕ, ◌+◌, ◌*◌, ◌/◌, ◌<◌, ◌≤◌, length};
ghost use Rattle.rules.specs.Lists.{each};
ghost use Rattle.rules.specs.Bits.{bits, bytes_of};
ghost use Rattle.bits.specs.Write.{Wrote};
ghost use Rattle.answers.specs.Answers.{Small, Written};

use bits::write::{put_last, put_pair, put32};

// "round, 12 each; zero bits", from byte 16 on.
pub fn put_round(a: &mut [u8], round: &[u32])
    requires { (16 + (12 * length round.now + 7) / 8 ≤ length a.old) × (length round.now ≤ 4096) × Small round.now }
    ensures { Wrote a.old 16 (bytes_of (each (bits 12) round.now)) a.new }
{
    let (pairs, last) = round.as_chunks::<2>();
    for (i, &[x, y]) in pairs.iter().enumerate() {
        put_pair(a, 16 + 3 * i, x, y);
    }
    if let [x] = last {
        put_last(a, 16 + 3 * pairs.len(), *x);
    }
}

// An answer: 1 if the search ended with no unit left, else 0; the round's time, the units and kicks, and the best round.
// ended is a number and no bool: its two bits may be any.
#[derive(Clone, Copy)]
pub struct Answer<'a> {
    pub ended: u32,
    pub time: u32,
    pub units: u32,
    pub kicks: u32,
    pub round: &'a [u32],
    pub ghost two_bits: { ended < 4 },
    pub ghost short: { length round.now ≤ 4096 },
    pub ghost small: { Small round.now },
}

impl Answer<'_> {
    // "version 4, ended 2, n 13, spare 13; time 32; units 32; kicks 32; round, 12 each; zero bits. Bytes beyond it stay."
    pub fn write(&self, a: &mut [u8])
        requires { 16 + (12 * length self.now.round.now + 7) / 8 ≤ length a.old }
        ensures { Written self.now.round.now self.now.time self.now.units self.now.kicks self.now.ended a.old a.new }
    {
        let n = self.round.len() as u32;
        put32(a, 0, 1 << 28 | self.ended << 26 | n << 13);
        put32(a, 4, self.time);
        put32(a, 8, self.units);
        put32(a, 12, self.kicks);
        put_round(a, self.round);
    }
}
