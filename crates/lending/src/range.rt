// From where to where a rule draws.
ghost use Rattle.std.specs.Prelude.{◌≤◌};

// The least and the greatest of a rule's draws.
#[derive(Clone, Copy)]
pub struct Range {
    low: u16,
    high: u16,
    ghost ordered: { low ≤ high },
}

impl Range {
    ghost use Rattle.std.specs.Prelude.{◌≡◌, ◌<◌, ◌⊎◌, ◌^◌, IfSome, IsNone};
    ghost use Rattle.draws.specs.Promises.{Drew};

    // From low to high, where both fit 16 bits.
    pub fn new(low: u32, high: u32) -> Option<Range>
        ensures fits { IfSome result (λ r. (r.low ≡ low) × (r.high ≡ high)) }
        ensures refused { IsNone result → (high < low) ⊎ (2 ^ 16 ≤ high) }
    {
        let low = u16::try_from(low).ok()?;
        let high = u16::try_from(high).ok()?;
        if low <= high {
            Some(Range { low, high })
        } else {
            None
        }
    }

    // From 0 to 0.
    pub fn nil() -> Range
        ensures { (result.low ≡ 0) × (result.high ≡ 0) }
    {
        Range { low: 0, high: 0 }
    }

    // A draw: the lent state is moved on in place.
    pub fn draw(&self, state: &mut u64) -> u16
        ensures { Drew state.old self.now.low self.now.high state.new result }
    {
        draws::draw(state, u32::from(self.low), u32::from(self.high)) as u16
    }
}
