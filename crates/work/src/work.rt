// The memory that is worked on.
ghost use Rattle.std.specs.Prelude.{◌≡◌, length};

use journal::track::Track;
use queue::queue::Queue;

// A track, those that wait, and words to scratch in, all for as many stops.
#[derive(Drop)]
pub struct Work<'b, 'a> {
    pub track: &'b mut Track<'a>,
    pub queue: &'b mut Queue<'a>,
    pub scratch: &'b mut [u32],
    pub ghost queue_fits: { length queue.now.words.now ≡ length track.now.stops.now },
    pub ghost scratch_fits: { length scratch.now ≡ length track.now.stops.now },
}
