// The stops beside the cuts of a kick, the legs that join them, and how they are queued.
ghost use Rattle.std.specs.Prelude.{◌≡◌, ◌<◌, length};
ghost use Rattle.rules.specs.Queue.{push_all as push_all_of};
ghost use Rattle.rules.specs.SharedWords.{Is};
ghost use Rattle.ring.specs.Legs.{IsTime};
ghost use Rattle.queue.specs.Queues.{SameQueue, waiting_in, Queued};
ghost use Rattle.kicks.specs.Exchanging.{Segments, stop_on as stop_on_of, joints_of, ends_queued, exchanged as exchanged_of, EndsOf, Eight};
ghost use Rattle.kicks.specs.Kicking.{legs_in};

use crate::cuts::Cut;
use legs::matrix::Matrix;
use legs::{Place, Stop};
use queue::queue::Queue;
use ring::places::wrap;
use ring::round::Round;

// The stop k steps after place start.
fn stop_on(round: &Round, start: Place, k: usize) -> Stop
    requires start_low { start.0 < length round.now.stops.now }
    requires k_low { k < length round.now.stops.now }
    ensures { Is (length round.now.stops.now) (stop_on_of round.now.stops.now start.0 k) result.0 }
{
    let i = wrap(start.0 as usize + k, round.len());
    round.stop_at(Place(i as u32))
}

// The ends of p X Y Z q.
#[derive(Clone, Copy)]
pub struct Ends {
    pub p: Stop,
    pub x0: Stop,
    pub x1: Stop,
    pub y0: Stop,
    pub y1: Stop,
    pub z0: Stop,
    pub z1: Stop,
    pub q: Stop,
}

impl Ends {
    // The stops beside the cuts.
    pub fn of(round: &Round, cut: Cut) -> Self
        requires { Segments (length round.now.stops.now) cut }
        ensures { EndsOf round.now.stops.now cut result }
    {
        let start = cut.start;
        let ab = cut.a + cut.b;
        let abc = ab + cut.c;
        Ends {
            p: stop_on(round, start, round.len() - 1),
            x0: stop_on(round, start, 0),
            x1: stop_on(round, start, cut.a - 1),
            y0: stop_on(round, start, cut.a),
            y1: stop_on(round, start, ab - 1),
            z0: stop_on(round, start, ab),
            z1: stop_on(round, start, abc - 1),
            q: stop_on(round, start, abc),
        }
    }

    // The ends of p Z Y X q.
    pub fn exchanged(self) -> Self
        ensures { result ≡ exchanged_of self }
    {
        Ends {
            x0: self.z0,
            x1: self.z1,
            z0: self.x0,
            z1: self.x1,
            ..self
        }
    }

    // The time of the legs that join p, X, Y, Z and q; X and Z where Y, of b places, is empty.
    #[tactic(auto, unfolding(crate::specs::Exchanging::joining))]
    pub fn joints(self, matrix: &Matrix, b: usize) -> u32
        requires { Eight matrix.now.n self }
        ensures { IsTime 4 (joints_of (legs_in matrix.now) b self) result }
    {
        let first = matrix.dist(self.p, self.x0);
        let last = matrix.dist(self.z1, self.q);
        if b == 0 {
            return first + matrix.dist(self.x1, self.z0) + last;
        }
        let second = matrix.dist(self.x1, self.y0);
        let third = matrix.dist(self.y1, self.z0);
        first + second + third + last
    }

    // Pushes the ends, in the order of a double bridge or of segments, of which the middle one has b places.
    pub fn push(self, queue: &mut Queue, bridge: bool, b: usize)
        requires { Eight (length queue.old.words.now) self }
        ensures same { SameQueue queue.old queue.new }
        ensures waits { Queued (push_all_of (waiting_in queue.old) (ends_queued bridge b self)) queue.old.head queue.new }
    {
        let e = self;
        if bridge {
            let stops = [e.q.0, e.p.0, e.x0.0, e.x1.0, e.y0.0, e.y1.0, e.z0.0, e.z1.0];
            queue.push_all(&stops);
        } else {
            let outer = [e.p.0, e.x0.0, e.x1.0, e.z0.0, e.z1.0, e.q.0];
            queue.push_all(&outer);
            if b != 0 {
                let inner = [e.y0.0, e.y1.0];
                queue.push_all(&inner);
            }
        }
    }
}
