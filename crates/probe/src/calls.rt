// The public calls on a session's memory: the state is lent, and left in place.
ghost use Rattle.promises.specs.Promises.{Loads, Commits, Undoes, KicksOnce, Descends};
ghost use Rattle.refusals.specs.Lending.{lending, carrying};

use planner::State;

// Sets the round to the caller's.
#[unsafe(no_mangle)]
pub extern "C" fn probe_load(
    n: usize,
    k: usize,
    ka: usize,
    matrix: &[u16],
    near: &[u32],
    alpha: &[u32],
    round: &mut [u32],
    places: &mut [u32],
    queue: &mut [u32],
    flags: &mut [u8],
    scratch: &mut [u32],
    journal: &mut [u32],
    head: &mut usize,
    count: &mut usize,
    held: &mut usize,
    time: &mut u32,
    start: &[u32],
) -> u32
    ensures { Loads (lending n k ka matrix.now near.now alpha.now round.old places.old queue.old flags.old scratch.old journal.old) (carrying head.old count.old held.old time.old) start.now (lending n k ka matrix.now near.now alpha.now round.new places.new queue.new flags.new scratch.new journal.new) (carrying head.new count.new held.new time.new) result }
{
    let state = State {
        head: *head,
        count: *count,
        held: *held,
        time: *time,
    };
    match planner::load(
        n, k, ka, matrix, near, alpha, round, places, queue, flags, scratch, journal, state, start,
    ) {
        Ok(left) => {
            *head = left.head;
            *count = left.count;
            *held = left.held;
            *time = left.time;
            0
        }
        Err(refusal) => refusal.number(),
    }
}

// Empties the journal, and keeps the queue.
#[unsafe(no_mangle)]
pub extern "C" fn probe_commit(
    n: usize,
    k: usize,
    ka: usize,
    matrix: &[u16],
    near: &[u32],
    alpha: &[u32],
    round: &mut [u32],
    places: &mut [u32],
    queue: &mut [u32],
    flags: &mut [u8],
    scratch: &mut [u32],
    journal: &mut [u32],
    head: &mut usize,
    count: &mut usize,
    held: &mut usize,
    time: &mut u32,
) -> u32
    ensures { Commits (lending n k ka matrix.now near.now alpha.now round.old places.old queue.old flags.old scratch.old journal.old) (carrying head.old count.old held.old time.old) (lending n k ka matrix.now near.now alpha.now round.new places.new queue.new flags.new scratch.new journal.new) (carrying head.new count.new held.new time.new) result }
{
    let state = State {
        head: *head,
        count: *count,
        held: *held,
        time: *time,
    };
    match planner::commit(
        n, k, ka, matrix, near, alpha, round, places, queue, flags, scratch, journal, state,
    ) {
        Ok(left) => {
            *head = left.head;
            *count = left.count;
            *held = left.held;
            *time = left.time;
            0
        }
        Err(refusal) => refusal.number(),
    }
}

// Gives back the last commit's round.
#[unsafe(no_mangle)]
pub extern "C" fn probe_undo(
    n: usize,
    k: usize,
    ka: usize,
    matrix: &[u16],
    near: &[u32],
    alpha: &[u32],
    round: &mut [u32],
    places: &mut [u32],
    queue: &mut [u32],
    flags: &mut [u8],
    scratch: &mut [u32],
    journal: &mut [u32],
    head: &mut usize,
    count: &mut usize,
    held: &mut usize,
    time: &mut u32,
) -> u32
    ensures { Undoes (lending n k ka matrix.now near.now alpha.now round.old places.old queue.old flags.old scratch.old journal.old) (carrying head.old count.old held.old time.old) (lending n k ka matrix.now near.now alpha.now round.new places.new queue.new flags.new scratch.new journal.new) (carrying head.new count.new held.new time.new) result }
{
    let state = State {
        head: *head,
        count: *count,
        held: *held,
        time: *time,
    };
    match planner::undo(
        n, k, ka, matrix, near, alpha, round, places, queue, flags, scratch, journal, state,
    ) {
        Ok(left) => {
            *head = left.head;
            *count = left.count;
            *held = left.held;
            *time = left.time;
            0
        }
        Err(refusal) => refusal.number(),
    }
}

// Kicks: the signed change in time is left in `change`.
#[unsafe(no_mangle)]
pub extern "C" fn probe_kick(
    n: usize,
    k: usize,
    ka: usize,
    matrix: &[u16],
    near: &[u32],
    alpha: &[u32],
    round: &mut [u32],
    places: &mut [u32],
    queue: &mut [u32],
    flags: &mut [u8],
    scratch: &mut [u32],
    journal: &mut [u32],
    head: &mut usize,
    count: &mut usize,
    held: &mut usize,
    time: &mut u32,
    kind: u32,
    draw: &mut u64,
    change: &mut i32,
) -> u32
    ensures { KicksOnce (lending n k ka matrix.now near.now alpha.now round.old places.old queue.old flags.old scratch.old journal.old) (carrying head.old count.old held.old time.old) kind draw.old (lending n k ka matrix.now near.now alpha.now round.new places.new queue.new flags.new scratch.new journal.new) (carrying head.new count.new held.new time.new) draw.new result change.new }
{
    let state = State {
        head: *head,
        count: *count,
        held: *held,
        time: *time,
    };
    match planner::kick(
        n, k, ka, matrix, near, alpha, round, places, queue, flags, scratch, journal, state, kind,
        draw,
    ) {
        Ok(kicked) => {
            *change = kicked.change;
            *head = kicked.state.head;
            *count = kicked.state.count;
            *held = kicked.state.held;
            *time = kicked.state.time;
            0
        }
        Err(refusal) => {
            *change = 0;
            refusal.number()
        }
    }
}

// Descends: what the time fell by, the stops taken and how it ended are left in `gain`, `units` and `ended`.
#[unsafe(no_mangle)]
pub extern "C" fn probe_descend(
    n: usize,
    k: usize,
    ka: usize,
    matrix: &[u16],
    near: &[u32],
    alpha: &[u32],
    round: &mut [u32],
    places: &mut [u32],
    queue: &mut [u32],
    flags: &mut [u8],
    scratch: &mut [u32],
    journal: &mut [u32],
    head: &mut usize,
    count: &mut usize,
    held: &mut usize,
    time: &mut u32,
    keeps: bool,
    step: u32,
    budget: u32,
    gain: &mut u32,
    units: &mut u32,
    ended: &mut u32,
) -> u32
    ensures { Descends (lending n k ka matrix.now near.now alpha.now round.old places.old queue.old flags.old scratch.old journal.old) (carrying head.old count.old held.old time.old) keeps step budget (lending n k ka matrix.now near.now alpha.now round.new places.new queue.new flags.new scratch.new journal.new) (carrying head.new count.new held.new time.new) result gain.new units.new ended.new }
{
    let state = State {
        head: *head,
        count: *count,
        held: *held,
        time: *time,
    };
    match planner::descend(
        n, k, ka, matrix, near, alpha, round, places, queue, flags, scratch, journal, state, keeps,
        step, budget,
    ) {
        Ok(descent) => {
            *gain = descent.gain;
            *units = descent.units;
            *ended = descent.ended.number();
            *head = descent.state.head;
            *count = descent.state.count;
            *held = descent.state.held;
            *time = descent.state.time;
            0
        }
        Err(refusal) => {
            *gain = 0;
            *units = 0;
            *ended = 0;
            refusal.number()
        }
    }
}
