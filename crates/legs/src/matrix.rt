// The times of the legs between stops.
ghost use Rattle.rules.specs.SharedWords.{Square};

use crate::Stop;

// The times of all legs between n stops, at most 4096, row by row.
#[derive(Clone, Copy)]
pub struct Matrix<'a> {
    pub n: usize,
    pub times: &'a [u16],
    pub ghost square: { Square times.now n },
}

impl<'a> Matrix<'a> {
    ghost use Rattle.std.specs.Prelude.{◌<◌};
    ghost use Rattle.rules.specs.Plan.{leg_in};
    ghost use Rattle.rules.specs.SharedWords.{IsLeg};

    // What the leg from stop a to stop b takes.
    pub fn dist(&self, a: Stop, b: Stop) -> u32
        requires a_low { a.0 < self.now.n }
        requires b_low { b.0 < self.now.n }
        ensures { IsLeg (leg_in self.now.n self.now.times.now a.0 b.0) result }
    {
        let at = a.0 as usize * self.n + b.0 as usize;
        self.times[at] as u32
    }
}
