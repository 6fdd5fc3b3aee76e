// The stops that wait: a ring of n words with a head and a count, and a flag for each stop.
ghost use Rattle.queue.specs.Lines.{InLine};

use crate::{Line, clear_queue, pop_front};
use legs::Stop;
use ring::places::{next, wrap};

// Words, flags, where those that wait begin, and how many they are.
#[derive(Drop)]
pub struct Queue<'a> {
    pub words: &'a mut [u32],
    pub flags: &'a mut [u8],
    pub head: usize,
    pub count: usize,
    pub ghost in_line: { InLine words.now flags.now head count },
}

impl<'a> Queue<'a> {
    ghost use Rattle.std.specs.Prelude.{◌≡◌, List, [], ℕ, ◌<◌, ◌≤◌, length, take};
    ghost use Rattle.rules.specs.Ring.{turn};
    ghost use Rattle.rules.specs.Queue.{push as push_of, push_all as push_all_of};
    ghost use Rattle.ring.specs.Legs.{Stops};
    ghost use Rattle.queue.specs.Lines.{Took};
    ghost use Rattle.queue.specs.Queues.{SameQueue, waiting_in, Queued};

    // Puts v behind those that wait, unless it waits.
    pub fn push(&mut self, v: Stop)
        requires { v.0 < length self.old.words.now }
        ensures same { SameQueue self.old self.new }
        ensures waits { Queued (push_of (waiting_in self.old) v.0) self.old.head self.new }
    {
        let at_v = v.0 as usize;
        let words = &mut *self.words;
        let flags = &mut *self.flags;
        if 0 < flags[at_v] {
            return;
        }
        flags[at_v] = 1;
        words[wrap(self.head + self.count, words.len())] = v.0;
        self.count += 1;
    }

    // Takes the first of those that wait.
    pub fn pop_front(&mut self) -> Stop
        requires { 0 < self.old.count }
        ensures same { SameQueue self.old self.new }
        ensures words { self.new.words.now ≡ self.old.words.now }
        ensures took { Took self.old.words.now self.old.flags.now self.old.head self.old.count result.0 self.new.flags.now self.new.head self.new.count }
    {
        let line = Line {
            head: self.head,
            count: self.count,
        };
        let words = &mut *self.words;
        let flags = &mut *self.flags;
        let taken = pop_front(words, flags, line);
        self.head = taken.line.head;
        self.count = taken.line.count;
        taken.stop
    }

    // Nobody waits any more, and the queue begins at 0.
    pub fn clear(&mut self)
        ensures same { SameQueue self.old self.new }
        ensures words { self.new.words.now ≡ self.old.words.now }
        ensures waits { Queued [] 0 self.new }
    {
        let line = Line {
            head: self.head,
            count: self.count,
        };
        let words = &mut *self.words;
        let flags = &mut *self.flags;
        let cleared = clear_queue(words, flags, line);
        self.head = cleared.head;
        self.count = cleared.count;
    }

    // Pushes the stops of a list, in order: those of a round, where every stop is to wait.
    pub fn push_all(&mut self, stops: &[u32])
        requires { Stops stops.now (length self.old.words.now) }
        ensures same { SameQueue self.old self.new }
        ensures waits { Queued (push_all_of (waiting_in self.old) stops.now) self.old.head self.new }
    {
        for &v in stops {
            self.push(Stop(v));
        }
    }

    // Pushes the stops of so many places from start on, round the ring.
    pub fn push_places(&mut self, round: &[u32], start: usize, places: usize)
        requires stops { Stops round.now (length self.old.words.now) }
        requires start_low { start < length round.now }
        requires places_low { places ≤ length round.now }
        ensures same { SameQueue self.old self.new }
        ensures waits { Queued (push_all_of (waiting_in self.old) (take places (turn start round.now))) self.old.head self.new }
    {
        let n = round.len();
        let mut at = start;
        for _step in 0..places {
            self.push(Stop(round[at]));
            at = next(at, n);
        }
    }
}
