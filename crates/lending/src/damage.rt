// Damage to what is lent, and its repair: a word is set, a slice is cut or grown with 0, or a number that goes in by value is put.
ghost use Rattle.std.specs.Prelude.{◌≡◌, ◌<◌, IfSome, IsNone};
ghost use Rattle.lending.specs.Memories.{HoldsNoMore};
ghost use Rattle.lending.specs.Names.{slice_number, number_name};
ghost use Rattle.lending.specs.Results.{HasSameSizes};

use crate::memory::Memory;
use crate::reader::Reader;
use crate::session::{Lengths, Session};

// A slice that is lent.
#[derive(Clone, Copy, PartialEq, Eq)]
pub enum Slice {
    Matrix,
    Near,
    Alpha,
    Round,
    Places,
    Queue,
    Flags,
    Scratch,
    Journal,
}

// A number that goes in by value.
#[derive(Clone, Copy, PartialEq, Eq)]
pub enum Number {
    N,
    K,
    Ka,
    Head,
    Count,
    Held,
    Time,
    Draw,
}

// What is done to a slice: a word is set to the low bits of a value, or the slice gets another length.
#[derive(Clone, Copy, PartialEq, Eq)]
pub enum Change {
    Set { index: usize, value: u64 },
    Resize { length: usize },
}

// What a record does.
#[derive(Clone, Copy, PartialEq, Eq)]
pub enum Damage {
    Strike(Slice, Change),
    Put(Number, u64),
}

impl Slice {
    // The slice of a number, if there is one.
    pub fn from_number(number: u32) -> Option<Slice>
        ensures known { IfSome result (λ s. slice_number s ≡ number) }
        ensures unknown { IsNone result → 8 < number }
    {
        match number {
            0 => Some(Slice::Matrix),
            1 => Some(Slice::Near),
            2 => Some(Slice::Alpha),
            3 => Some(Slice::Round),
            4 => Some(Slice::Places),
            5 => Some(Slice::Queue),
            6 => Some(Slice::Flags),
            7 => Some(Slice::Scratch),
            8 => Some(Slice::Journal),
            _ => None,
        }
    }
}

impl Number {
    // What a number names, if it names something.
    pub fn from_number(number: u32) -> Option<Number>
        ensures known { IfSome result (λ s. number_name s ≡ number) }
        ensures unknown { IsNone result → 7 < number }
    {
        match number {
            0 => Some(Number::N),
            1 => Some(Number::K),
            2 => Some(Number::Ka),
            3 => Some(Number::Head),
            4 => Some(Number::Count),
            5 => Some(Number::Held),
            6 => Some(Number::Time),
            7 => Some(Number::Draw),
            _ => None,
        }
    }
}

impl Damage {
    // What a record says: a name that is not known names nothing, and what is done is a number that is put unless it is known.
    pub fn read(record: &mut Reader) -> Option<Damage> {
        let action = record.word();
        let name = record.word();
        let index = record.size();
        let value = record.long();
        match action {
            1 => Some(Damage::Strike(Slice::from_number(name)?, Change::Set { index, value })),
            2 => Some(Damage::Strike(Slice::from_number(name)?, Change::Resize { length: index })),
            _ => Some(Damage::Put(Number::from_number(name)?, value)),
        }
    }

    // Does it to what is lent.
    pub fn apply(self, session: &mut Session, memory: &mut Memory)
        ensures { HasSameSizes memory.new.work memory.old.work }
    {
        match self {
            Damage::Strike(slice, change) => memory.strike(&mut session.lengths, slice, change),
            Damage::Put(number, value) => session.put(number, value),
        }
    }

    // Does it, and where a slice is changed, fits what a call writes, the round aside, to what is lent of it.
    pub fn apply_fitted(self, session: &mut Session, memory: &mut Memory)
        ensures { HoldsNoMore memory.old.work session.old.lengths → HoldsNoMore memory.new.work session.new.lengths }
    {
        match self {
            Damage::Strike(slice, change) => {
                memory.strike(&mut session.lengths, slice, change);
                memory.work.fit(&session.lengths);
            }
            Damage::Put(number, value) => session.put(number, value),
        }
    }
}

// A word of a slice.
trait Word: Drop {
    // The low bits of a value.
    fn low(value: u64) -> Self;
}

impl Word for u8 {
    fn low(value: u64) -> u8 {
        (value & 0xff) as u8
    }
}

impl Word for u16 {
    fn low(value: u64) -> u16 {
        (value & 0xffff) as u16
    }
}

impl Word for u32 {
    fn low(value: u64) -> u32 {
        (value & 0xffff_ffff) as u32
    }
}

// Changes a slice, of which so much is lent. What it grows by is 0, as far as there is memory.
fn strike<T: Word>(words: &mut [T], lent: &mut usize, change: Change) {
    match change {
        Change::Set { index, value } => {
            if let Some(word) = words.get_mut(index) {
                *word = T::low(value);
            }
        }
        Change::Resize { length } => {
            for word in words.iter_mut().take(length).skip(*lent) {
                *word = T::low(0);
            }
            *lent = length;
        }
    }
}

impl Memory {
    // Changes a slice.
    fn strike(&mut self, lengths: &mut Lengths, slice: Slice, change: Change)
        ensures { HasSameSizes self.new.work self.old.work }
    {
        let plan = &mut self.plan;
        let work = &mut self.work;
        match slice {
            Slice::Matrix => strike(&mut plan.matrix, &mut lengths.matrix, change),
            Slice::Near => strike(&mut plan.near, &mut lengths.near, change),
            Slice::Alpha => strike(&mut plan.alpha, &mut lengths.alpha, change),
            Slice::Round => strike(&mut work.round, &mut lengths.round, change),
            Slice::Places => strike(&mut work.places, &mut lengths.places, change),
            Slice::Queue => strike(&mut work.queue, &mut lengths.queue, change),
            Slice::Flags => strike(&mut work.flags, &mut lengths.flags, change),
            Slice::Scratch => strike(&mut work.scratch, &mut lengths.scratch, change),
            Slice::Journal => strike(&mut work.journal, &mut lengths.journal, change),
        }
    }
}

impl Session {
    // Puts a number.
    fn put(&mut self, number: Number, value: u64)
        ensures { self.new.lengths ≡ self.old.lengths }
    {
        let word = u32::low(value);
        match number {
            Number::N => self.n = word as usize,
            Number::K => self.k = word as usize,
            Number::Ka => self.ka = word as usize,
            Number::Head => self.state.head = word as usize,
            Number::Count => self.state.count = word as usize,
            Number::Held => self.state.held = word as usize,
            Number::Time => self.state.time = word,
            Number::Draw => self.state.draw = value,
        }
    }
}
