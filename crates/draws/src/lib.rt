// The draws: Marsaglia's 64-bit xorshift, and a number from low to high.

#![tactic(auto)]

ghost use Rattle.std.specs.Prelude.{◌≤◌};
ghost use Rattle.draws.specs.Promises.{Stepped, Picked, Drew};

// The state that the source moves on to.
pub fn step(x: u64) -> u64
    ensures { Stepped x result }
{
    let y = x ^ (x << 13);
    let z = y ^ (y >> 7);
    z ^ (z << 17)
}

// What the new state draws from low to high.
pub fn pick(low: u32, high: u32, new: u64) -> u32
    requires { low ≤ high }
    ensures { Picked low high new result }
{
    let span = (high - low) as u64 + 1;
    low + (new % span) as u32
}

// The source of the draws: its state.
#[derive(Clone, Copy)]
pub struct Draws {
    pub state: u64,
}

impl Draws {
    // A draw from low to high: the lent source is moved on in place.
    pub fn draw(&mut self, low: u32, high: u32) -> u32
        requires { low ≤ high }
        ensures { Drew self.old.state low high self.new.state result }
    {
        self.state = step(self.state);
        pick(low, high, self.state)
    }
}

// A draw from low to high, from a state that is lent alone: it is moved on in place.
pub fn draw(state: &mut u64, low: u32, high: u32) -> u32
    requires { low ≤ high }
    ensures { Drew state.old low high state.new result }
{
    let mut source = Draws { state: *state };
    let drawn = source.draw(low, high);
    *state = source.state;
    drawn
}
