// Runs the stored answers of the oracle through the public functions, and says how many agree.
//
// The list comes by standard input. A kind of record that is added gets a function that runs one, a line in `Kind::from_number` and
// `Replay::meet`, and a tally. What the records of a session leave in lent memory is there for the next.

#![tactic(auto)]

ghost use Rattle.std.specs.Prelude.{◌≡◌, ◌<◌, ◌⊎◌, IfSome, IsNone};
ghost use Rattle.replay.specs.Kinds.{IsNumberOf};

mod case;
mod list;
mod rounds;
mod tallies;

use crate::list::{LONGEST, Next};
use crate::rounds::{exact_case, start_case};
use crate::tallies::{Answer, Tallies};
use lending::memory::Memory;
use lending::session::Session;
use sessions::records;
use std::alloc::{AllocError, Global};
use std::io::Read;

// No list has more records.
const RECORDS: u32 = 1_000_000;

// The words of the table that the exact solver is lent at most.
const TABLE: usize = 24_576;

// The kinds of records.
#[derive(Clone, Copy)]
enum Kind {
    Start,
    Exact,
    Session,
}

impl Kind {
    // The kind of a number, if it is one.
    fn from_number(number: u8) -> Option<Kind>
        ensures known { IfSome result (λ kind. IsNumberOf number kind) }
        ensures unknown { IsNone result → (number ≡ 0) ⊎ (5 < number) }
    {
        match number {
            1 => Some(Kind::Start),
            2 => Some(Kind::Exact),
            _ => records::Kind::from_number(number).map(|_| Kind::Session),
        }
    }
}

// A run over a list: the records read so far, the tallies, where the session stands, and what is lent.
#[derive(Drop)]
struct Replay {
    records: u64,
    tallies: Tallies,
    session: Session,
    memory: Memory,
    table: Vec<u32>,
}

impl Replay {
    // Before the first record.
    fn new(alloc: Global) -> Result<Replay, AllocError> {
        Ok(Replay {
            records: 0,
            tallies: Tallies::default(),
            session: Session::default(),
            memory: Memory::with_room(alloc)?,
            table: vec![in alloc; 0; TABLE]?,
        })
    }

    // Runs a record, and counts it if it has an answer.
    fn meet(&mut self, rt: &impl Print, number: u8, record: &[u8]) {
        self.records = self.records.saturating_add(1);
        let plan = &mut self.memory.plan;
        let work = &mut self.memory.work;
        match Kind::from_number(number) {
            Some(Kind::Start) => {
                let agreed = start_case(record, &mut plan.matrix, &mut work.round);
                self.tallies.count(rt, Answer::Start, agreed, self.records);
            }
            Some(Kind::Exact) => {
                let agreed = exact_case(record, &mut plan.matrix, &mut self.table, &mut work.round);
                self.tallies.count(rt, Answer::Exact, agreed, self.records);
            }
            Some(Kind::Session) => {
                let met = records::follow_fitted(
                    &mut self.session,
                    &mut self.memory,
                    number,
                    record,
                );
                if let Some(met) = met {
                    self.tallies
                        .count(rt, Answer::from(met), met.agreed, self.records);
                }
            }
            None => {
                let records = self.records;
                let _ = println!(rt; "record {records} is of no known kind");
            }
        }
    }

    // Runs a list, whose records are read into these bytes, and says whether it is whole.
    fn run<R: Read>(&mut self, rt: &impl Print, input: &mut R, bytes: &mut [u8]) -> bool {
        for _ in 0..RECORDS {
            match list::read(input, bytes) {
                Next::Record { kind, length } => self.meet(rt, kind, &bytes[..length]),
                Next::End => return true,
                Next::Cut => return false,
            }
        }
        false
    }
}

// All memory is taken before the first record. A line that can't be written is dropped, and the run goes on.
fn main(rt: HostRuntime) -> Result<(), AllocError> {
    let alloc = rt.alloc();
    let mut bytes = vec![in alloc; 0; LONGEST]?;
    let mut replay = Replay::new(alloc)?;
    let whole = replay.run(&rt, &mut rt.stdin(), &mut bytes);
    replay.tallies.tell(&rt);
    let records = replay.records;
    let _ = if whole {
        println!(rt; "{records} records, the whole list")
    } else {
        println!(rt; "{records} records, and then the list is cut")
    };
    Ok(())
}
