// The public calls: load, commit, undo, kick, descend. Each checks what it is lent, refuses, or does what the rule says. The slices are lent
// one by one, as C lends them (crate probe); a struct of loans that are taken out of another struct gets no proof in this Rattle.

#![tactic(auto)]

ghost use Rattle.std.specs.Prelude.{◌≡◌};
ghost use Rattle.promises.specs.Promises.{Loads, Commits, Undoes, KicksOnce, Descends};
ghost use Rattle.numbers.specs.Numbers.{number_in};
ghost use Rattle.refusals.specs.Lending.{lending};
ghost use Rattle.refusals.specs.Lents.{carried_in};
ghost use Rattle.planner.specs.Answers.{left_by, kicked_by, change_by, descended_by, gain_by, units_by, ended_by};

use crate::works::{descend_on, kick_on, undo_on};
use descent::kinds::{Ending, StepKind};
use journal::track::Track;
use kicks::kinds::KickKind;
use legs::lists::Lists;
use legs::matrix::Matrix;
use legs::plan::Plan;
use loads::load_round;
use numbers::Refusal;
use queue::queue::Queue;
use refusals::asked::step_good;
use refusals::lent::Lent;
pub use refusals::lent::State;

mod works;

// What a kick gives: the state, and the signed change in time.
#[derive(Clone, Copy)]
pub struct Kicked {
    pub state: State,
    pub change: i32,
}

// What a descent gives: the state, the gain, the units taken, and how it ended.
#[derive(Clone, Copy)]
pub struct Descended {
    pub state: State,
    pub gain: u32,
    pub units: u32,
    pub ended: Ending,
}

// The state that load and undo leave: nobody waits, the queue begins at 0, and no entry is held.
fn empty(time: u32) -> State
    ensures { (result.head ≡ 0) × ((result.count ≡ 0) × ((result.held ≡ 0) × (result.time ≡ time))) }
{
    State {
        head: 0,
        count: 0,
        held: 0,
        time,
    }
}

// Sets the round to the caller's, with empty queue and journal: a commit.
pub fn load<'a>(
    n: usize,
    k: usize,
    ka: usize,
    matrix: &'a [u16],
    near: &'a [u32],
    alpha: &'a [u32],
    round: &'a mut [u32],
    places: &'a mut [u32],
    queue: &'a mut [u32],
    flags: &'a mut [u8],
    scratch: &'a mut [u32],
    journal: &'a mut [u32],
    state: State,
    start: &[u32],
) -> Result<State, Refusal>
    ensures { Loads (lending n k ka matrix.now near.now alpha.now round.old places.old queue.old flags.old scratch.old journal.old) (carried_in state) start.now (lending n k ka matrix.now near.now alpha.now round.new places.new queue.new flags.new scratch.new journal.new) (left_by state result) (number_in result) }
{
    let lent = Lent {
        n,
        k,
        ka,
        matrix,
        near,
        alpha,
        round: &*round,
        places: &*places,
        queue: &*queue,
        flags: &*flags,
        scratch: &*scratch,
        journal: &*journal,
    };
    lent.check_load(start)?;
    let matrix = Matrix { n, times: matrix };
    let time = load_round(&matrix, round, places, flags, start);
    let after = empty(time);
    Ok(after)
}

// Empties the journal, and keeps the queue.
pub fn commit<'a>(
    n: usize,
    k: usize,
    ka: usize,
    matrix: &'a [u16],
    near: &'a [u32],
    alpha: &'a [u32],
    round: &'a mut [u32],
    places: &'a mut [u32],
    queue: &'a mut [u32],
    flags: &'a mut [u8],
    scratch: &'a mut [u32],
    journal: &'a mut [u32],
    state: State,
) -> Result<State, Refusal>
    ensures { Commits (lending n k ka matrix.now near.now alpha.now round.old places.old queue.old flags.old scratch.old journal.old) (carried_in state) (lending n k ka matrix.now near.now alpha.now round.new places.new queue.new flags.new scratch.new journal.new) (left_by state result) (number_in result) }
{
    let lent = Lent {
        n,
        k,
        ka,
        matrix,
        near,
        alpha,
        round: &*round,
        places: &*places,
        queue: &*queue,
        flags: &*flags,
        scratch: &*scratch,
        journal: &*journal,
    };
    lent.check_call(state, true)?;
    Ok(State { held: 0, ..state })
}

// Gives back the last commit's round and its time, with an empty queue.
pub fn undo<'a>(
    n: usize,
    k: usize,
    ka: usize,
    matrix: &'a [u16],
    near: &'a [u32],
    alpha: &'a [u32],
    round: &'a mut [u32],
    places: &'a mut [u32],
    queue: &'a mut [u32],
    flags: &'a mut [u8],
    scratch: &'a mut [u32],
    journal: &'a mut [u32],
    state: State,
) -> Result<State, Refusal>
    ensures { Undoes (lending n k ka matrix.now near.now alpha.now round.old places.old queue.old flags.old scratch.old journal.old) (carried_in state) (lending n k ka matrix.now near.now alpha.now round.new places.new queue.new flags.new scratch.new journal.new) (left_by state result) (number_in result) }
{
    let lent = Lent {
        n,
        k,
        ka,
        matrix,
        near,
        alpha,
        round: &*round,
        places: &*places,
        queue: &*queue,
        flags: &*flags,
        scratch: &*scratch,
        journal: &*journal,
    };
    lent.check_call(state, true)?;
    let matrix = Matrix { n, times: matrix };
    let mut track = Track {
        stops: round,
        places,
        journal,
        held: state.held,
    };
    let mut line = Queue {
        words: queue,
        flags,
        head: state.head,
        count: state.count,
    };
    let recounted = undo_on(&matrix, &mut track, &mut line, scratch);
    let after = empty(recounted);
    Ok(after)
}

// Moves stops as the draws say. The kind is a number, since one that is no kind is refused.
pub fn kick<'a>(
    n: usize,
    k: usize,
    ka: usize,
    matrix: &'a [u16],
    near: &'a [u32],
    alpha: &'a [u32],
    round: &'a mut [u32],
    places: &'a mut [u32],
    queue: &'a mut [u32],
    flags: &'a mut [u8],
    scratch: &'a mut [u32],
    journal: &'a mut [u32],
    state: State,
    kind: u32,
    draw: &mut u64,
) -> Result<Kicked, Refusal>
    ensures { KicksOnce (lending n k ka matrix.now near.now alpha.now round.old places.old queue.old flags.old scratch.old journal.old) (carried_in state) kind draw.old (lending n k ka matrix.now near.now alpha.now round.new places.new queue.new flags.new scratch.new journal.new) (kicked_by state result) draw.new (number_in result) (change_by result) }
{
    let lent = Lent {
        n,
        k,
        ka,
        matrix,
        near,
        alpha,
        round: &*round,
        places: &*places,
        queue: &*queue,
        flags: &*flags,
        scratch: &*scratch,
        journal: &*journal,
    };
    lent.check_kick(state, kind, *draw)?;
    let matrix = Matrix { n, times: matrix };
    let mut track = Track {
        stops: round,
        places,
        journal,
        held: state.held,
    };
    let mut line = Queue {
        words: queue,
        flags,
        head: state.head,
        count: state.count,
    };
    let legs = kick_on(
        &matrix,
        &mut track,
        &mut line,
        scratch,
        draw,
        KickKind::of(kind),
    );
    let higher = state.time + legs.added;
    Ok(Kicked {
        state: State {
            head: line.head,
            count: line.count,
            held: track.held,
            time: higher - legs.removed,
        },
        change: kicks::change(legs.added, legs.removed),
    })
}

// Takes stops from the queue and makes the step from each, while some wait, a unit is left and a kept descent has room. The kind is a number, as
// a kick's is.
pub fn descend<'a>(
    n: usize,
    k: usize,
    ka: usize,
    matrix: &'a [u16],
    near: &'a [u32],
    alpha: &'a [u32],
    round: &'a mut [u32],
    places: &'a mut [u32],
    queue: &'a mut [u32],
    flags: &'a mut [u8],
    scratch: &'a mut [u32],
    journal: &'a mut [u32],
    state: State,
    keeps: bool,
    step: u32,
    budget: u32,
) -> Result<Descended, Refusal>
    ensures { Descends (lending n k ka matrix.now near.now alpha.now round.old places.old queue.old flags.old scratch.old journal.old) (carried_in state) keeps step budget (lending n k ka matrix.now near.now alpha.now round.new places.new queue.new flags.new scratch.new journal.new) (descended_by state result) (number_in result) (gain_by result) (units_by result) (ended_by result) }
{
    let lent = Lent {
        n,
        k,
        ka,
        matrix,
        near,
        alpha,
        round: &*round,
        places: &*places,
        queue: &*queue,
        flags: &*flags,
        scratch: &*scratch,
        journal: &*journal,
    };
    let told = step_good(ka, step);
    lent.check_call(state, told)?;
    let times = Matrix { n, times: matrix };
    let nears = Lists {
        n,
        count: k,
        entries: near,
    };
    let alphas = Lists {
        n,
        count: ka,
        entries: alpha,
    };
    let plan = Plan {
        matrix: times,
        near: nears,
        alpha: alphas,
    };
    let mut track = Track {
        stops: round,
        places,
        journal,
        held: state.held,
    };
    let mut line = Queue {
        words: queue,
        flags,
        head: state.head,
        count: state.count,
    };
    let d = descend_on(
        &plan,
        &mut track,
        &mut line,
        scratch,
        StepKind::of(step),
        keeps,
        budget,
        state.time,
    );
    Ok(Descended {
        state: State {
            head: line.head,
            count: line.count,
            held: track.held,
            time: d.time,
        },
        gain: state.time - d.time,
        units: budget - d.left,
        ended: d.ended,
    })
}
