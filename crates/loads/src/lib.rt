// The round that a load lays into memory, and the one that an undo gives back there.

#![tactic(auto)]

ghost use Rattle.std.specs.Prelude.{◌≡◌, true, List, [], ℕ, ◌≤◌, length};
ghost use Rattle.rules.specs.Ring.{is_round};
ghost use Rattle.rules.specs.Journal.{good_journal, entries_of, undo_all};
ghost use Rattle.rules.specs.SharedWords.{Tied};
ghost use Rattle.queue.specs.Lines.{InLine};
ghost use Rattle.loads.specs.Lying.{Laid, Lies};
ghost use Rattle.work.specs.Works.{SameWork};
ghost use Rattle.loads.specs.Undoing.{Undone};

use journal::rollback;
use legs::matrix::Matrix;
use queue::{Line, clear_queue};
use ring::times::cost;
use work::work::Work;

// Copies a round, and writes the place of each stop. Stop by stop: a copy in one step would ask C's memmove of whoever links the library.
fn lay(round: &mut [u32], places: &mut [u32], start: &[u32])
    requires few { length start.now ≤ 4096 }
    requires is_round { is_round (length start.now) start.now ≡ true }
    requires round_fits { length round.old ≡ length start.now }
    requires places_fit { length places.old ≡ length start.now }
    ensures { Laid start.now round.new places.new }
{
    for (place, &stop) in start.iter().enumerate() {
        round[place] = stop;
        places[stop as usize] = place as u32;
    }
}

// Lays a round, with nobody waiting. Returns its time.
pub fn load_round(
    matrix: &Matrix,
    round: &mut [u32],
    places: &mut [u32],
    flags: &mut [u8],
    start: &[u32],
) -> u32
    requires size { matrix.now.n ≡ length start.now }
    requires is_round { is_round (length start.now) start.now ≡ true }
    requires round_fits { length round.old ≡ length start.now }
    requires places_fit { length places.old ≡ length start.now }
    requires flags_fit { length flags.old ≡ length start.now }
    ensures { Lies matrix.now.times.now start.now round.new places.new flags.new result }
{
    lay(round, places, start);
    flags.fill(0);
    cost(matrix, start)
}

// Takes all entries back and empties the queue, in lent words. Returns the recount of the round that is there then.
pub fn undo_lent(
    matrix: &Matrix,
    round: &mut [u32],
    places: &mut [u32],
    queue: &[u32],
    flags: &mut [u8],
    scratch: &mut [u32],
    journal: &[u32],
    held: usize,
    line: Line,
) -> u32
    requires size { matrix.now.n ≡ length round.old }
    requires tied { Tied round.old places.old }
    requires scratch_len { length scratch.old ≡ length round.old }
    requires held_value { good_journal (length round.old) journal.now held ≡ true }
    requires queue_len { length queue.now ≡ length round.old }
    requires in_line { InLine queue.now flags.old line.head line.count }
    ensures { Lies matrix.now.times.now (undo_all (entries_of journal.now held) round.old) round.new places.new flags.new result }
{
    rollback(round, places, scratch, journal, held, 0);
    clear_queue(queue, flags, line);
    cost(matrix, round)
}

// Takes all entries back and empties the queue. Returns the recount of the round that is there then.
pub fn undo_round(matrix: &Matrix, work: &mut Work) -> u32
    requires size { matrix.now.n ≡ length work.old.track.now.stops.now }
    ensures same { SameWork work.old work.new }
    ensures undone { Undone matrix.now.times.now work.old work.new result }
{
    let track = &mut *work.track;
    let scratch = &mut *work.scratch;
    let queue = &mut *work.queue;
    let held = track.held;
    let line = Line {
        head: queue.head,
        count: queue.count,
    };
    let stops = &mut *track.stops;
    let places = &mut *track.places;
    let journal = &mut *track.journal;
    let words = &mut *queue.words;
    let flags = &mut *queue.flags;
    let time = undo_lent(
        matrix, stops, places, words, flags, scratch, journal, held, line,
    );
    track.held = 0;
    queue.head = 0;
    queue.count = 0;
    time
}
