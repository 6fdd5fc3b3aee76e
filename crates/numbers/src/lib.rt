// Why a call is refused, and the number that says so outside.

#![tactic(auto)]

ghost use Rattle.std.specs.Prelude.{◌≡◌};
ghost use Rattle.numbers.specs.Numbers.{refusal_number, number_in};

// Why a call is refused. The lowest number that applies is given; for sheets the order is 9, 1, 2, 10, 4, 6.
#[derive(Clone, Copy, PartialEq, Eq, Debug)]
pub enum Refusal {
    // n is outside its range.
    Size = 1,
    // k, ka, a step kind or a kick kind is outside its range, or a seed or a draw state is 0.
    Setting = 2,
    // A lent length is not what n, k and ka say.
    Length = 3,
    // The journal, the exact table or the answer has too little room.
    Room = 4,
    // The matrix is not symmetric.
    Asymmetric = 5,
    // A list entry is n or more, or the stop itself.
    Entry = 6,
    // Round, places, queue, flags, journal and time disagree.
    State = 7,
    // A kick has fewer than 30 free journal entries.
    Full = 8,
    // A sheet is too short, of another version, or has a spare header bit set.
    Header = 9,
    // A sheet's length is wrong, or a spare bit at its end is set.
    End = 10,
}

impl Refusal {
    // Its number.
    pub fn number(self) -> u32
        ensures { result ≡ refusal_number self }
    {
        self as u32
    }
}

// An answer's number: 0 where nothing is refused.
pub fn number_of<T>(answer: &Result<T, Refusal>) -> u32
    ensures { result ≡ number_in answer.now }
{
    match answer {
        Ok(_) => 0,
        Err(refusal) => refusal.number(),
    }
}
