// What a header is refused for: 9, 1 and 2.
ghost use Rattle.std.specs.Prelude.{◌≡◌};
ghost use Rattle.numbers.specs.Numbers.{number_in};
ghost use Rattle.rules.specs.Numbers.{verdict, good_sizes, good_step};
ghost use Rattle.sheets.specs.Sheet.{header_of, head_checks, good_told};

use crate::header::Header;
use numbers::Refusal;

impl Header {
    // 9, but for the length, and 1.
    #[tactic(auto, unfolding(crate::specs::Sheet::head_checks, rules::specs::Numbers::verdict, rules::specs::Numbers::within))]
    pub fn head_check(self) -> Result<(), Refusal>
        ensures { number_in result ≡ verdict (head_checks (header_of self)) }
    {
        if self.version != 1 || self.spare != 0 {
            return Err(Refusal::Header);
        }
        if !(2..=128).contains(&self.n) {
            return Err(Refusal::Size);
        }
        Ok(())
    }

    // k of 1 to 20, ka of 0 to 5.
    #[tactic(auto, unfolding(rules::specs::Numbers::good_sizes, rules::specs::Numbers::within))]
    pub fn sizes_good(self) -> bool
        ensures { result ≡ good_sizes self.k self.ka }
    {
        (1..=20).contains(&self.k) && self.ka <= 5
    }

    // Step kinds 1 and 2 need an alpha list.
    #[tactic(auto, unfolding(rules::specs::Numbers::good_step))]
    pub fn step_good(self) -> bool
        ensures { result ≡ good_step self.ka self.step }
    {
        self.step <= 2 && (self.step == 0 || 1 <= self.ka)
    }

    // 2.
    #[tactic(auto, unfolding(crate::specs::Sheet::good_told))]
    pub fn told_good(self) -> bool
        ensures { result ≡ good_told (header_of self) }
    {
        self.sizes_good() && self.step_good() && 1 <= self.seed
    }
}
