// A tally for each kind of answer: the start rounds, the exact solver, each call that was accepted, and refusals of any call.
ghost use Rattle.std.specs.Prelude.{◌≡◌, ◌+◌, IsTrue, min};

use lending::told::Call;
use sessions::calls::Met;
use std::fmt;

// So many of a kind that differ are told by their number in the list.
const TOLD: u64 = 5;

// The kinds of answers.
#[derive(Clone, Copy, PartialEq, Eq)]
pub enum Answer {
    Start,
    Exact,
    Load,
    Kick,
    Descend,
    Commit,
    Undo,
    Refusal,
}

impl Answer {
    // All kinds, in their order.
    const ALL: [Answer; 8] = [
        Answer::Start,
        Answer::Exact,
        Answer::Load,
        Answer::Kick,
        Answer::Descend,
        Answer::Commit,
        Answer::Undo,
        Answer::Refusal,
    ];
}

impl From<Met> for Answer {
    fn from(met: Met) -> Answer {
        if met.refused {
            return Answer::Refusal;
        }
        match met.call {
            Call::Load => Answer::Load,
            Call::Kick { .. } => Answer::Kick,
            Call::Descend { .. } => Answer::Descend,
            Call::Commit => Answer::Commit,
            Call::Undo => Answer::Undo,
        }
    }
}

impl fmt::Display for Answer {
    fn fmt<W: fmt::Write>(&self, f: &mut fmt::Formatter<W>) -> fmt::Result {
        f.write_str(match self {
            Answer::Start => "start",
            Answer::Exact => "exact",
            Answer::Load => "load",
            Answer::Kick => "kick",
            Answer::Descend => "descend",
            Answer::Commit => "commit",
            Answer::Undo => "undo",
            Answer::Refusal => "refusal",
        })
    }
}

// How many cases of a kind were run, agreed and differed, as far as the numbers go.
#[derive(Clone, Copy, Default)]
struct Tally {
    run: u64,
    agreed: u64,
    differed: u64,
}

impl Tally {
    fn count(&mut self, agreed: bool)
        ensures run { self.new.run ≡ min (self.old.run + 1) u64.MAX }
        ensures agrees { IsTrue agreed → (self.new.agreed ≡ min (self.old.agreed + 1) u64.MAX) × (self.new.differed ≡ self.old.differed) }
        ensures differs { ¬ (IsTrue agreed) → (self.new.agreed ≡ self.old.agreed) × (self.new.differed ≡ min (self.old.differed + 1) u64.MAX) }
    {
        self.run = self.run.saturating_add(1);
        if agreed {
            self.agreed = self.agreed.saturating_add(1);
        } else {
            self.differed = self.differed.saturating_add(1);
        }
    }
}

impl fmt::Display for Tally {
    fn fmt<W: fmt::Write>(&self, f: &mut fmt::Formatter<W>) -> fmt::Result {
        let Tally {
            run,
            agreed,
            differed,
        } = *self;
        write!(f, "{run} run, {agreed} agreed, {differed} differed")
    }
}

// The tallies by the kinds of answers.
#[derive(Clone, Copy, Default)]
pub struct Tallies([Tally; 8]);

impl Tallies {
    // After another case, the so manieth of the list.
    pub fn count(&mut self, rt: &impl Print, answer: Answer, agreed: bool, record: u64) {
        let tally = &mut self.0[answer as usize];
        if !agreed && tally.differed < TOLD {
            let _ = println!(rt; "{answer}: record {record} differs");
        }
        tally.count(agreed);
    }

    // Says how many of each kind there were.
    pub fn tell(&self, rt: &impl Print) {
        for answer in Answer::ALL {
            let tally = self.0[answer as usize];
            let _ = println!(rt; "{answer}: {tally}");
        }
    }
}
