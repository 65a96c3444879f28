// The blocks that wait behind the one in work: sixteen places, the first to be cut first.
// What the places from `len` on hold is free, and no answer depends on it.
#![tactic(auto)]

ghost use Rattle.std.specs.Prelude.{◌≡◌, true, ◌&&◌, eqb, ◌≤◌, ◌<◌};
ghost use Rattle.plane.specs.Travel.{inside_of};
ghost use Rattle.plane.specs.computed.Travel.{Wide};
ghost use Rattle.block.specs.Chain.{chain_end, chain_cycles};
ghost use Rattle.queue.specs.Queue.{waiting, empty_queue, pushed_of, first_of, popped_of};
ghost use Rattle.queue.specs.computed.Queue.{queue_sound};
ghost use Rattle.queue.specs.computed.Test.{taken_off};

use block::questions::ask_load;
use block::root::{cycles_by, is_root};
use block::{Block, Path};
use plane::point::Point;
use plane::travel::Travel;

// A block as its load was given it, with its root: so its cycles can be counted again at every call without taking one.
#[derive(Clone, Copy)]
pub struct Waiting {
    pub block: Block,
    // Of a line its cycles, of an arc those of a quarter turn.
    pub root: u64,
}

#[derive(Clone, Copy)]
pub struct Queue {
    // An array and no `ArrayVec`: the machine is a plain value that goes in and comes back, and that has no `Copy`.
    pub blocks: [Waiting; 16],
    // How many wait: 0 to 16.
    pub len: u64,
}

// What a place holds that no block has come into.
fn blank() -> Waiting
    ensures { result ≡ Rattle.queue.specs.Queue.blank }
{
    let none = Block {
        path: Path::Line,
        end: Point { x: 0, y: 0 },
        feed: 0,
    };
    Waiting {
        block: none,
        root: 0,
    }
}

// What is left of a count after the cycles of a block that waits, where the block would be accepted from here and has its root, and the
// count has so many; whatever its numbers.
pub fn take_off(capacity: u64, travel: Travel, start: Point, w: Waiting, count: u64) -> Option<u64>
    requires { Wide travel × (inside_of travel start ≡ true) }
    ensures { result ≡ taken_off capacity travel start w count }
{
    let b = w.block;
    if ask_load(capacity, travel, true, start, b).is_err() {
        return None;
    }
    if !is_root(start, b, w.root) {
        return None;
    }
    count.checked_sub(cycles_by(start, b, w.root))
}

impl Queue {
    #[tactic(auto, unfolding(crate::specs::Queue::empty_queue))]
    pub fn empty() -> Queue
        ensures { result ≡ empty_queue }
    {
        Queue {
            blocks: [blank(); 16],
            len: 0,
        }
    }

    // A block more, behind those that wait.
    #[tactic(auto, unfolding(crate::specs::Queue::pushed_of))]
    pub fn push(self, w: Waiting) -> Queue
        requires { self.len < 16 }
        ensures { result ≡ pushed_of self w }
    {
        let mut next = self;
        next.blocks[self.len as usize] = w;
        next.len = self.len + 1;
        next
    }

    // The block that is cut next, where one waits.
    pub fn first(self) -> Waiting
        ensures { result ≡ first_of self }
    {
        self.blocks[0]
    }

    // The queue without its first block.
    pub fn pop(self) -> Queue
        requires { 1 ≤ self.len }
        ensures { result ≡ popped_of self }
    {
        let mut next = self;
        next.blocks.copy_within(1.., 0);
        next.blocks[15] = blank();
        next.len = self.len - 1;
        next
    }

    // Where the next block starts: the end of the last one that waits, or `from` where none does.
    pub fn tail(self, from: Point) -> Point
        requires { self.len ≤ 16 }
        ensures { result ≡ chain_end from (waiting self) }
    {
        if self.len == 0 {
            return from;
        }
        let last = (self.len - 1) as usize;
        self.blocks[last].block.end
    }

    // Whether the queue is sound behind a block that ends at `from`, and its blocks take so many cycles together; for any numbers in it.
    pub fn is_sound(self, capacity: u64, travel: Travel, from: Point, cycles: u64) -> bool
        requires { Wide travel × (inside_of travel from ≡ true) }
        ensures { result ≡ (queue_sound capacity travel from self && eqb cycles (chain_cycles from (waiting self))) }
    {
        if 16 < self.len {
            return false;
        }
        let mut start = from;
        let mut left = cycles;
        for w in &self.blocks[..self.len as usize] {
            let Some(rest) = take_off(capacity, travel, start, *w, left) else {
                return false;
            };
            left = rest;
            start = w.block.end;
        }
        left == 0
    }
}
