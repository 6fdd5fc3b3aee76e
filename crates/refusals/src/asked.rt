// What 2 asks of a descent and of a kick.
ghost use Rattle.std.specs.Prelude.{◌≡◌};
ghost use Rattle.rules.specs.Numbers.{good_step, good_kick};

// A descent's step kind: those that scan the alpha list need one.
pub fn step_good(ka: usize, step: u32) -> bool
    ensures { result ≡ good_step ka step }
{
    if 2 < step {
        return false;
    }
    if step == 0 {
        return true;
    }
    1 <= ka
}

// A kick's kind, and a draw state.
pub fn kick_good(kind: u32, draw: u64) -> bool
    ensures { result ≡ good_kick kind draw }
{
    if 2 < kind {
        return false;
    }
    1 <= draw
}
