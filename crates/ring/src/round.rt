// A round to be read: a stop's place, the stop at a place, a stop's neighbours.
ghost use Rattle.rules.specs.SharedWords.{Tied};

use crate::places::{next, on_way, prev};
use legs::{Place, Stop};

// The stops in the order of the round, and the place of each stop.
#[derive(Clone, Copy)]
pub struct Round<'a> {
    pub stops: &'a [u32],
    pub places: &'a [u32],
    pub ghost tied: { Tied stops.now places.now },
}

impl<'a> Round<'a> {
    ghost use Rattle.std.specs.Prelude.{◌≡◌, Bool, true, ◌<◌, length};
    ghost use Rattle.rules.specs.Lists.{at};
    ghost use Rattle.rules.specs.Ring.{place, succ as succ_of, pred as pred_of, ahead as ahead_of, behind as behind_of, beside as beside_of, between as between_of};
    ghost use Rattle.rules.specs.SharedWords.{Is};

    // How many stops it has.
    pub fn len(&self) -> usize
        ensures { result ≡ length self.now.stops.now }
    {
        self.stops.len()
    }

    // The place of stop v.
    pub fn place_of(&self, v: Stop) -> Place
        requires { v.0 < length self.now.stops.now }
        ensures { Is (length self.now.stops.now) (place self.now.stops.now v.0) result.0 }
    {
        Place(self.places[v.0 as usize])
    }

    // The stop at place p.
    pub fn stop_at(&self, p: Place) -> Stop
        requires { p.0 < length self.now.stops.now }
        ensures { Is (length self.now.stops.now) (at self.now.stops.now p.0) result.0 }
    {
        Stop(self.stops[p.0 as usize])
    }

    // The stop after v.
    pub fn succ(&self, v: Stop) -> Stop
        requires { v.0 < length self.now.stops.now }
        ensures { Is (length self.now.stops.now) (succ_of self.now.stops.now v.0) result.0 }
    {
        let p = self.places[v.0 as usize] as usize;
        let q = next(p, self.stops.len());
        Stop(self.stops[q])
    }

    // The stop before v.
    pub fn pred(&self, v: Stop) -> Stop
        requires { v.0 < length self.now.stops.now }
        ensures { Is (length self.now.stops.now) (pred_of self.now.stops.now v.0) result.0 }
    {
        let p = self.places[v.0 as usize] as usize;
        let q = prev(p, self.stops.len());
        Stop(self.stops[q])
    }

    // The stop after v in a direction, true for the ring's own.
    pub fn ahead(&self, fwd: bool, v: Stop) -> Stop
        requires { v.0 < length self.now.stops.now }
        ensures { Is (length self.now.stops.now) (ahead_of fwd self.now.stops.now v.0) result.0 }
    {
        if fwd { self.succ(v) } else { self.pred(v) }
    }

    // The stop before v in a direction.
    pub fn behind(&self, fwd: bool, v: Stop) -> Stop
        requires { v.0 < length self.now.stops.now }
        ensures { Is (length self.now.stops.now) (behind_of fwd self.now.stops.now v.0) result.0 }
    {
        if fwd { self.pred(v) } else { self.succ(v) }
    }

    // One or the other.
    pub fn beside(&self, fwd: bool, after: bool, v: Stop) -> Stop
        requires { v.0 < length self.now.stops.now }
        ensures { Is (length self.now.stops.now) (beside_of fwd self.now.stops.now after v.0) result.0 }
    {
        if after {
            self.ahead(fwd, v)
        } else {
            self.behind(fwd, v)
        }
    }

    // Stop b lies on the way forward from stop a to stop c, ends included.
    pub fn between(&self, a: Stop, b: Stop, c: Stop) -> bool
        requires a_low { a.0 < length self.now.stops.now }
        requires b_low { b.0 < length self.now.stops.now }
        requires c_low { c.0 < length self.now.stops.now }
        ensures { result ≡ between_of true self.now.stops.now a.0 b.0 c.0 }
    {
        let p = self.place_of(a);
        let q = self.place_of(b);
        let s = self.place_of(c);
        on_way(p.0, q.0, s.0)
    }

    // The same in a direction.
    pub fn between_dir(&self, fwd: bool, a: Stop, b: Stop, c: Stop) -> bool
        requires a_low { a.0 < length self.now.stops.now }
        requires b_low { b.0 < length self.now.stops.now }
        requires c_low { c.0 < length self.now.stops.now }
        ensures { result ≡ between_of fwd self.now.stops.now a.0 b.0 c.0 }
    {
        if fwd {
            self.between(a, b, c)
        } else {
            self.between(c, b, a)
        }
    }
}
