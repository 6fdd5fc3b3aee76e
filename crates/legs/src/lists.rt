// Lists of stops, one for each stop.
ghost use Rattle.std.specs.Prelude.{◌≤◌};
ghost use Rattle.rules.specs.SharedWords.{Listed};

use crate::Stop;

// So many entries for each of n stops.
#[derive(Clone, Copy)]
pub struct Lists<'a> {
    pub n: usize,
    pub count: usize,
    pub entries: &'a [u32],
    pub ghost few: { n ≤ 4096 },
    pub ghost listed: { Listed entries.now count n },
}

impl<'a> Lists<'a> {
    ghost use Rattle.std.specs.Prelude.{◌<◌};
    ghost use Rattle.rules.specs.Lists.{at};
    ghost use Rattle.rules.specs.Plan.{list_in};
    ghost use Rattle.rules.specs.SharedWords.{Is};

    // Entry i of v's list.
    pub fn entry(&self, v: Stop, i: usize) -> Stop
        requires v_low { v.0 < self.now.n }
        requires i_low { i < self.now.count }
        ensures { Is self.now.n (at (list_in self.now.count self.now.entries.now v.0) i) result.0 }
    {
        let at = v.0 as usize * self.count + i;
        Stop(self.entries[at])
    }
}
