// The records of a session: one sets up what is lent, others damage it or call.
ghost use Rattle.std.specs.Prelude.{◌≡◌, ◌≢◌, IfSome, IsNone, IsSome, IsTrue};
ghost use Rattle.lending.specs.Memories.{HoldsNoMore, IsCleared};
ghost use Rattle.lending.specs.Results.{HasSameSizes};
ghost use Rattle.sessions.specs.Records.{kind_number};

use crate::calls::{Met, meet};
use lending::damage::Damage;
use lending::memory::Memory;
use lending::plan::{set_up, set_up_fitted};
use lending::reader::Reader;
use lending::session::Session;

// The kinds of records.
#[derive(Clone, Copy, PartialEq, Eq)]
pub enum Kind {
    SetUp,
    Damage,
    Call,
}

impl Kind {
    // The kind of a number, if it is one of a session.
    pub fn from_number(number: u8) -> Option<Kind>
        ensures known { IfSome result (λ k. kind_number k ≡ number) }
        ensures unknown { IsNone result → (number ≢ 3) × (number ≢ 4) × (number ≢ 5) }
    {
        match number {
            3 => Some(Kind::SetUp),
            4 => Some(Kind::Damage),
            5 => Some(Kind::Call),
            _ => None,
        }
    }
}

// Does what a record says. What a call writes keeps its length, or is fitted, the round aside, to what is lent of it when it is set up or a slice
// is changed.
fn follow_as<const FITTED: bool>(
    session: &mut Session,
    memory: &mut Memory,
    kind: u8,
    record: &[u8],
) -> Option<Met>
    ensures call { IsSome result → kind ≡ kind_number Kind.Call }
    ensures no_call { IsNone result → kind ≢ kind_number Kind.Call }
    ensures cleared { ¬ (IsTrue FITTED) → kind ≡ kind_number Kind.SetUp → IsCleared memory.old.work memory.new.work }
    ensures sizes { ¬ (IsTrue FITTED) → kind ≡ kind_number Kind.Damage → HasSameSizes memory.new.work memory.old.work }
    ensures no_more { IsTrue FITTED → IsNone result → HoldsNoMore memory.old.work session.old.lengths → HoldsNoMore memory.new.work session.new.lengths }
    ensures set_up { IsTrue FITTED → kind ≡ kind_number Kind.SetUp → HoldsNoMore memory.new.work session.new.lengths }
{
    let mut record = Reader::new(record);
    match Kind::from_number(kind)? {
        Kind::SetUp => {
            *session = if FITTED {
                set_up_fitted(&mut record, memory)
            } else {
                set_up(&mut record, memory)
            };
            None
        }
        Kind::Damage => {
            if let Some(damage) = Damage::read(&mut record) {
                if FITTED {
                    damage.apply_fitted(session, memory);
                } else {
                    damage.apply(session, memory);
                }
            }
            None
        }
        Kind::Call => Some(meet(session, &mut record, memory)),
    }
}

// Does what a record of a session says; one of another kind says nothing. A call is made and compared, and it says how that went.
// What a call reads and writes keeps its length.
pub fn follow(session: &mut Session, memory: &mut Memory, kind: u8, record: &[u8]) -> Option<Met>
    ensures call { IsSome result → kind ≡ kind_number Kind.Call }
    ensures no_call { IsNone result → kind ≢ kind_number Kind.Call }
    ensures cleared { kind ≡ kind_number Kind.SetUp → IsCleared memory.old.work memory.new.work }
    ensures sizes { kind ≡ kind_number Kind.Damage → HasSameSizes memory.new.work memory.old.work }
{
    follow_as::<false>(session, memory, kind, record)
}

// The same, but what a call writes is fitted, the round aside, to what is lent of it when it is set up or a slice is changed, so that a refused
// call keeps and compares no more.
pub fn follow_fitted(
    session: &mut Session,
    memory: &mut Memory,
    kind: u8,
    record: &[u8],
) -> Option<Met>
    ensures call { IsSome result → kind ≡ kind_number Kind.Call }
    ensures no_call { IsNone result → kind ≢ kind_number Kind.Call }
    ensures no_more { IsNone result → HoldsNoMore memory.old.work session.old.lengths → HoldsNoMore memory.new.work session.new.lengths }
    ensures set_up { kind ≡ kind_number Kind.SetUp → HoldsNoMore memory.new.work session.new.lengths }
{
    follow_as::<true>(session, memory, kind, record)
}
