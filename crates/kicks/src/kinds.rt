// The kinds of kicks.
ghost use Rattle.std.specs.Prelude.{◌≡◌};
ghost use Rattle.kicks.specs.Kinds.{kick_kind_in, kick_number};

// What a kick does: 0 segments X Y Z, 1 segments X Z, 2 global.
#[derive(Clone, Copy, PartialEq, Eq)]
pub enum KickKind {
    Bridge = 0,
    Swap = 1,
    Global = 2,
}

impl KickKind {
    // The kind of a number, as the planner is told it: any other is read as global.
    pub fn of(number: u32) -> Self
        ensures { result ≡ kick_kind_in number }
    {
        match number {
            0 => KickKind::Bridge,
            1 => KickKind::Swap,
            _ => KickKind::Global,
        }
    }

    // Its number.
    pub fn number(self) -> u32
        ensures { result ≡ kick_number self }
    {
        self as u32
    }
}
