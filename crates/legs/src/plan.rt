// What a search is given and never changes.
ghost use Rattle.std.specs.Prelude.{◌≡◌};

use crate::Stop;
use crate::lists::Lists;
use crate::matrix::Matrix;

// The matrix, the near lists and the alpha lists. Where no alpha list is read they may be empty.
#[derive(Clone, Copy)]
pub struct Plan<'a> {
    pub matrix: Matrix<'a>,
    pub near: Lists<'a>,
    pub alpha: Lists<'a>,
    pub ghost near_fits: { near.n ≡ matrix.n },
    pub ghost alpha_fits: { alpha.n ≡ matrix.n },
}

impl<'a> Plan<'a> {
    ghost use Rattle.std.specs.Prelude.{◌<◌};
    ghost use Rattle.rules.specs.Lists.{at};
    ghost use Rattle.rules.specs.Plan.{leg_in, list_in};
    ghost use Rattle.rules.specs.SharedWords.{Is, IsLeg};

    // What the leg from stop a to stop b takes.
    pub fn dist(&self, a: Stop, b: Stop) -> u32
        requires a_low { a.0 < self.now.matrix.n }
        requires b_low { b.0 < self.now.matrix.n }
        ensures { IsLeg (leg_in self.now.matrix.n self.now.matrix.times.now a.0 b.0) result }
    {
        self.matrix.dist(a, b)
    }

    // Entry i of v's near list.
    pub fn near(&self, v: Stop, i: usize) -> Stop
        requires v_low { v.0 < self.now.matrix.n }
        requires i_low { i < self.now.near.count }
        ensures { Is self.now.matrix.n (at (list_in self.now.near.count self.now.near.entries.now v.0) i) result.0 }
    {
        self.near.entry(v, i)
    }
}
