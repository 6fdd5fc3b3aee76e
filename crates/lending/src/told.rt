// What a record says of a call: its kind and arguments, and what the oracle answered.
ghost use Rattle.std.specs.Prelude.{◌≡◌};
ghost use Rattle.lending.specs.Results.{HasNoResult};

use crate::reader::Reader;
use crate::session::{Session, State};

// A call and its arguments.
#[derive(Clone, Copy, PartialEq, Eq)]
pub enum Call {
    Load,
    Kick { kind: u32 },
    Descend { keeps: bool, step: u32, budget: u32 },
    Commit,
    Undo,
}

// What a call gave: its refusal's number, or 0, the state it left, and its results. A record may tell a number that no refusal has.
#[derive(Clone, Copy, PartialEq, Eq, Default)]
pub struct Outcome {
    pub number: u32,
    pub state: State,
    pub change: i32,
    pub gain: u32,
    pub units: u32,
    pub ended: u32,
    pub kicks: u32,
}

// A call, how many stops a load's start round has, and what the oracle answered.
#[derive(Clone, Copy)]
pub struct Told {
    pub call: Call,
    pub starts: usize,
    pub answer: Outcome,
}

impl Call {
    // The call that a record says. A kind that is not known is an undo.
    fn read(record: &mut Reader) -> Call {
        let number = record.word();
        let first = record.word();
        let second = record.word();
        let third = record.word();
        // Four more arguments, which none of these calls takes.
        record.skip(16);
        match number {
            1 => Call::Load,
            2 => Call::Kick { kind: first },
            3 => Call::Descend {
                keeps: first != 0,
                step: second,
                budget: third,
            },
            4 => Call::Commit,
            _ => Call::Undo,
        }
    }
}

impl Outcome {
    // The outcome of a refusal: the state as it came, and 0 in every result.
    pub fn refused(session: &Session, number: u32) -> Outcome
        ensures number { result.number ≡ number }
        ensures state { result.state ≡ session.now.state }
        ensures no_result { HasNoResult result }
    {
        Outcome::settled(number, session.state)
    }

    // The outcome of a call that gives a state and no more.
    pub fn settled(number: u32, state: State) -> Outcome
        ensures number { result.number ≡ number }
        ensures state { result.state ≡ state }
        ensures no_result { HasNoResult result }
    {
        Outcome {
            number,
            state,
            ..Outcome::default()
        }
    }
}

impl Told {
    // What a record says, up to a load's start round. A refusal's outcome says its number alone.
    pub fn read(record: &mut Reader) -> Told {
        let call = Call::read(record);
        let number = record.word();
        let starts = record.size();
        let head = record.size();
        let count = record.size();
        let held = record.size();
        let time = record.word();
        let added = record.word();
        let removed = record.word();
        let gain = record.word();
        let units = record.word();
        let ended = record.word();
        let kicks = record.word();
        let draw = record.long();
        let state = State {
            head,
            count,
            held,
            time,
            draw,
        };
        let answer = Outcome {
            number,
            state,
            change: signed(added, removed),
            gain,
            units,
            ended,
            kicks,
        };
        Told {
            call,
            starts,
            answer,
        }
    }
}

// What was added less what was removed, or 0 where one is too large.
fn signed(added: u32, removed: u32) -> i32 {
    match (i32::try_from(added), i32::try_from(removed)) {
        (Ok(added), Ok(removed)) => added.saturating_sub(removed),
        _ => 0,
    }
}
