// The memory that calls are lent, from the start of each slice as much as the session says. It is on the heap: no crate but the program
// `replay` and its library of calls stands on it. All of it is there before the first record, so that none fails for want of it later.
// Each slice keeps its whole length, since what lies beyond what is lent stays for later. But the program begins, the round aside, with room
// alone for what a call writes, and fits it to what is lent when a record sets it up or changes a slice: a refused call keeps and compares no more.
ghost use Rattle.std.specs.Prelude.{◌≡◌, ◌≤◌, ◌-◌, ◌++◌, length, min, take, replicate, vec_len, vec_capacity, IfOk};
ghost use Rattle.lending.specs.Memories.{HoldsNoMore, IsBlank, HasKept, HasRoomAlone};
ghost use Rattle.lending.specs.Results.{HasRoom, HasSameSizes, HasSameWords, fitted};

use crate::session::Lengths;
use std::alloc::{AllocError, Global};

// No record gets more than this of each slice.
const CELLS: usize = 1_000_000;

const NEAR: usize = 20_000;

const ALPHA: usize = 5_000;
// A start round's case is lent more than a session's calls.
const ROUND: usize = 4_200;

pub const STOPS: usize = 1_100;

const JOURNAL: usize = 6_000;

// What a call reads.
#[derive(Drop)]
pub struct Plan {
    pub matrix: Vec<u16>,
    pub near: Vec<u32>,
    pub alpha: Vec<u32>,
}

// What a call writes.
#[derive(PartialEq, Eq, Drop)]
pub struct Work {
    pub round: Vec<u32>,
    pub places: Vec<u32>,
    pub queue: Vec<u32>,
    pub flags: Vec<u8>,
    pub scratch: Vec<u32>,
    pub journal: Vec<u32>,
}

// What is lent, and room for a call's start round and for what its work held before.
#[derive(Drop)]
pub struct Memory {
    pub plan: Plan,
    pub work: Work,
    pub start: Vec<u32>,
    pub kept: Work,
}

impl Memory {
    // Memory in which every word is 0.
    pub fn new(alloc: Global) -> Result<Memory, AllocError>
        ensures { IfOk result (λ memory. IsBlank memory.work) }
    {
        Ok(Memory {
            plan: Plan::new(alloc)?,
            work: Work::new(alloc)?,
            start: vec![in alloc; 0; STOPS]?,
            kept: Work::new(alloc)?,
        })
    }

    // The same, but of what a call writes only the round is there, and for the other slices there is room.
    pub fn with_room(alloc: Global) -> Result<Memory, AllocError>
        ensures { IfOk result (λ memory. HasRoomAlone memory.work) }
    {
        Ok(Memory {
            plan: Plan::new(alloc)?,
            work: Work::with_room(alloc)?,
            start: vec![in alloc; 0; STOPS]?,
            kept: Work::with_room(alloc)?,
        })
    }
}

impl Plan {
    // Every word is 0.
    fn new(alloc: Global) -> Result<Plan, AllocError> {
        Ok(Plan {
            matrix: vec![in alloc; 0; CELLS]?,
            near: vec![in alloc; 0; NEAR]?,
            alpha: vec![in alloc; 0; ALPHA]?,
        })
    }
}

impl Work {
    // Every word is 0.
    fn new(alloc: Global) -> Result<Work, AllocError>
        ensures { IfOk result IsBlank }
    {
        Ok(Work {
            round: vec![in alloc; 0; ROUND]?,
            places: vec![in alloc; 0; STOPS]?,
            queue: vec![in alloc; 0; STOPS]?,
            flags: vec![in alloc; 0; STOPS]?,
            scratch: vec![in alloc; 0; STOPS]?,
            journal: vec![in alloc; 0; JOURNAL]?,
        })
    }

    // A round in which every word is 0, and room for the other slices, of which nothing is lent.
    fn with_room(alloc: Global) -> Result<Work, AllocError>
        ensures { IfOk result HasRoomAlone }
    {
        Ok(Work {
            round: vec![in alloc; 0; ROUND]?,
            places: Vec::with_capacity(alloc, STOPS)?,
            queue: Vec::with_capacity(alloc, STOPS)?,
            flags: Vec::with_capacity(alloc, STOPS)?,
            scratch: Vec::with_capacity(alloc, STOPS)?,
            journal: Vec::with_capacity(alloc, JOURNAL)?,
        })
    }

    // Cuts and grows what is lent, as far as there is room: what is added is 0. The round stays, since cases of the start rounds use it too.
    pub fn fit(&mut self, lengths: &Lengths)
        ensures round { self.new.round.items ≡ self.old.round.items }
        ensures places { self.new.places.items ≡ fitted (min lengths.now.places (vec_capacity self.old.places)) self.old.places.items }
        ensures queue { self.new.queue.items ≡ fitted (min lengths.now.queue (vec_capacity self.old.queue)) self.old.queue.items }
        ensures flags { self.new.flags.items ≡ fitted (min lengths.now.flags (vec_capacity self.old.flags)) self.old.flags.items }
        ensures scratch { self.new.scratch.items ≡ fitted (min lengths.now.scratch (vec_capacity self.old.scratch)) self.old.scratch.items }
        ensures journal { self.new.journal.items ≡ fitted (min lengths.now.journal (vec_capacity self.old.journal)) self.old.journal.items }
        ensures no_more { HoldsNoMore self.new lengths.now }
    {
        fit(&mut self.places, lengths.places, 0);
        fit(&mut self.queue, lengths.queue, 0);
        fit(&mut self.flags, lengths.flags, 0);
        fit(&mut self.scratch, lengths.scratch, 0);
        fit(&mut self.journal, lengths.journal, 0);
    }

    // Keeps the words of another, as far as there is room.
    pub fn keep(&mut self, work: &Work)
        ensures same_sizes { HasSameSizes self.old work.now → HasSameWords self.new work.now }
        ensures room { HasRoom self.old work.now → HasSameWords self.new work.now }
        ensures kept { HasKept self.old work.now self.new }
    {
        keep(&mut self.round, &work.round);
        keep(&mut self.places, &work.places);
        keep(&mut self.queue, &work.queue);
        keep(&mut self.flags, &work.flags);
        keep(&mut self.scratch, &work.scratch);
        keep(&mut self.journal, &work.journal);
    }

    // Every word is 0.
    pub fn clear(&mut self)
        ensures round { self.new.round.items ≡ replicate (vec_len self.old.round) 0 }
        ensures places { self.new.places.items ≡ replicate (vec_len self.old.places) 0 }
        ensures queue { self.new.queue.items ≡ replicate (vec_len self.old.queue) 0 }
        ensures flags { self.new.flags.items ≡ replicate (vec_len self.old.flags) 0 }
        ensures scratch { self.new.scratch.items ≡ replicate (vec_len self.old.scratch) 0 }
        ensures journal { self.new.journal.items ≡ replicate (vec_len self.old.journal) 0 }
    {
        self.round.fill(0);
        self.places.fill(0);
        self.queue.fill(0);
        self.flags.fill(0);
        self.scratch.fill(0);
        self.journal.fill(0);
    }
}

// Cuts words, or adds zeros as far as there is room.
fn fit<T: Copy>(words: &mut Vec<T>, count: usize, zero: T)
    ensures { words.new.items ≡ take (min count (vec_capacity words.old)) words.old.items ++ replicate (min count (vec_capacity words.old) - vec_len words.old) zero }
{
    let count = count.min(words.capacity());
    // It asks for no memory, so it does not fail.
    let _ = words.resize(count, zero);
}

// Copies words, as many as there is room for.
fn keep<T: Copy>(kept: &mut Vec<T>, words: &[T])
    ensures { kept.new.items ≡ take (vec_capacity kept.old) words.now }
{
    let count = words.len().min(kept.capacity());
    kept.clear();
    // It asks for no memory, so it does not fail.
    let _ = kept.extend_from_slice(&words[..count]);
}

// As much of a slice as is lent to be read.
pub fn lent<T>(words: &[T], count: usize) -> &[T]
    ensures { result.now ≡ take count words.now }
{
    &words[..count.min(words.len())]
}

// As much of a slice as is lent to be written.
pub fn lent_mut<T>(words: &mut [T], count: usize) -> &mut [T]
    ensures { result.now ≡ take count words.old }
{
    let end = count.min(words.len());
    &mut words[..end]
}
