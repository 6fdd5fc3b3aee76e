// One call over lent memory, as a record tells it, and whether it gave what the oracle answered.
ghost use Rattle.sessions.specs.Records.{MovesOn};

use lending::memory::{Memory, Plan, STOPS, Work, lent, lent_mut};
use lending::reader::Reader;
use lending::session::{Session, State};
use lending::told::{Call, Outcome, Told};
use numbers::Refusal;

// The state that a call is handed.
fn handed(state: State) -> planner::State {
    planner::State {
        head: state.head,
        count: state.count,
        held: state.held,
        time: state.time,
    }
}

// The state that a call left, with the draw state.
fn left(state: planner::State, draw: u64) -> State {
    State {
        head: state.head,
        count: state.count,
        held: state.held,
        time: state.time,
        draw,
    }
}

// What a call gave that gives the state alone, or a refusal, which leaves the state as it came.
fn settled(answer: Result<planner::State, Refusal>, came: planner::State, draw: u64) -> Outcome {
    match answer {
        Ok(after) => Outcome::settled(0, left(after, draw)),
        Err(refusal) => Outcome::settled(refusal.number(), left(came, draw)),
    }
}

// Makes a call over as much of plan and work as is lent.
fn make(call: Call, session: &Session, start: &[u32], plan: &Plan, work: &mut Work) -> Outcome {
    let Session {
        n,
        k,
        ka,
        lengths,
        state,
    } = *session;
    let matrix = lent(&plan.matrix, lengths.matrix);
    let near = lent(&plan.near, lengths.near);
    let alpha = lent(&plan.alpha, lengths.alpha);
    let round = lent_mut(&mut work.round, lengths.round.min(STOPS));
    let places = lent_mut(&mut work.places, lengths.places);
    let queue = lent_mut(&mut work.queue, lengths.queue);
    let flags = lent_mut(&mut work.flags, lengths.flags);
    let scratch = lent_mut(&mut work.scratch, lengths.scratch);
    let journal = lent_mut(&mut work.journal, lengths.journal);
    let mut draw = state.draw;
    let state = handed(state);
    match call {
        Call::Load => settled(
            planner::load(
                n, k, ka, matrix, near, alpha, round, places, queue, flags, scratch, journal,
                state, start,
            ),
            state,
            draw,
        ),
        Call::Kick { kind } => {
            let kicked = planner::kick(
                n, k, ka, matrix, near, alpha, round, places, queue, flags, scratch, journal,
                state, kind, &mut draw,
            );
            match kicked {
                Ok(kicked) => Outcome {
                    change: kicked.change,
                    ..Outcome::settled(0, left(kicked.state, draw))
                },
                Err(refusal) => settled(Err(refusal), state, draw),
            }
        }
        Call::Descend {
            keeps,
            step,
            budget,
        } => {
            let descended = planner::descend(
                n, k, ka, matrix, near, alpha, round, places, queue, flags, scratch, journal,
                state, keeps, step, budget,
            );
            match descended {
                Ok(descended) => Outcome {
                    gain: descended.gain,
                    units: descended.units,
                    ended: descended.ended.number(),
                    ..Outcome::settled(0, left(descended.state, draw))
                },
                Err(refusal) => settled(Err(refusal), state, draw),
            }
        }
        Call::Commit => settled(
            planner::commit(
                n, k, ka, matrix, near, alpha, round, places, queue, flags, scratch, journal, state,
            ),
            state,
            draw,
        ),
        Call::Undo => settled(
            planner::undo(
                n, k, ka, matrix, near, alpha, round, places, queue, flags, scratch, journal, state,
            ),
            state,
            draw,
        ),
    }
}

// A record's call, whether it was to be refused, and whether it gave and left what was answered.
#[derive(Clone, Copy, PartialEq, Eq)]
pub struct Met {
    pub call: Call,
    pub refused: bool,
    pub agreed: bool,
}

// Makes a record's call, compares, and moves the session on. A load's start round stands in the record.
pub fn meet(session: &mut Session, record: &mut Reader, memory: &mut Memory) -> Met
    ensures { MovesOn session.old session.new }
{
    let told = Told::read(record);
    let start = lent_mut(&mut memory.start, told.starts.min(STOPS));
    record.fill(start);
    memory.kept.keep(&memory.work);
    let given = make(told.call, session, start, &memory.plan, &mut memory.work);
    let agreed = given.agrees(&told.answer, record, session, &memory.work, &memory.kept);
    session.state = given.state;
    Met {
        call: told.call,
        refused: told.answer.number != 0,
        agreed,
    }
}
