// The stops that wait.

#![tactic(auto)]

ghost use Rattle.std.specs.Prelude.{List, [], ℕ, ◌<◌};
ghost use Rattle.queue.specs.Lines.{InLine, Waits, Took};

use legs::Stop;
use ring::places::next;

pub mod queue;

// Where the queue begins in its words, and how many wait.
#[derive(Clone, Copy)]
pub struct Line {
    pub head: usize,
    pub count: usize,
}

// A stop taken, and those that wait then.
#[derive(Clone, Copy)]
pub struct Taken {
    pub stop: Stop,
    pub line: Line,
}

// Takes the first of those that wait.
pub fn pop_front(queue: &[u32], flags: &mut [u8], line: Line) -> Taken
    requires in_line { InLine queue.now flags.old line.head line.count }
    requires count_nonzero { 0 < line.count }
    ensures { Took queue.now flags.old line.head line.count result.stop.0 flags.new result.line.head result.line.count }
{
    let v = queue[line.head];
    flags[v as usize] = 0;
    let head = next(line.head, queue.len());
    Taken {
        stop: Stop(v),
        line: Line {
            head,
            count: line.count - 1,
        },
    }
}

// Nobody waits any more, and the queue begins at 0.
pub fn clear_queue(queue: &[u32], flags: &mut [u8], line: Line) -> Line
    requires { InLine queue.now flags.old line.head line.count }
    ensures { Waits [] 0 queue.now flags.new result.head result.count }
{
    let mut left = line;
    while 0 < left.count {
        let taken = pop_front(queue, flags, left);
        left = taken.line;
    }
    Line { head: 0, count: 0 }
}
