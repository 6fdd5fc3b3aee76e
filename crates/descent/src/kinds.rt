// The kinds of a step, and the ways a descent ends.
ghost use Rattle.std.specs.Prelude.{◌≡◌};
ghost use Rattle.descent.specs.Kinds.{step_kind_in, ended_number};

// Which searches a step makes.
#[derive(Clone, Copy, PartialEq, Eq)]
pub enum StepKind {
    // `lk_from`, and where it gains 0 `improve`.
    Lk = 0,
    // `lk3_from`, and where it gains 0 `improve`.
    Lk3 = 1,
    // `lk3_from` alone, below 5 stops `improve` alone.
    Lk3Only = 2,
}

impl StepKind {
    // The kind of a number that the C interface is given: any but 0 and 1 is read as Lk3Only.
    pub fn of(number: u32) -> Self
        ensures { result ≡ step_kind_in number }
    {
        match number {
            0 => StepKind::Lk,
            1 => StepKind::Lk3,
            _ => StepKind::Lk3Only,
        }
    }
}

// Why a descent ended.
#[derive(Clone, Copy, PartialEq, Eq)]
pub enum Ending {
    // Nobody waits.
    Idle = 0,
    // No unit is left.
    Spent = 1,
    // The journal is too full for a step of a kept descent.
    Full = 2,
}

impl Ending {
    // The number that the C interface gives back.
    pub fn number(self) -> u32
        ensures { result ≡ ended_number self }
    {
        self as u32
    }
}
