// The root of a block: q of a line, the cycles of a quarter turn of an arc. Its cycles are known from it without taking one.
ghost use Rattle.std.specs.Prelude.{◌≡◌, eqb};
ghost use Rattle.block.specs.Block.{block_cycles};
ghost use Rattle.block.specs.Chain.{root_of};
ghost use Rattle.block.specs.computed.Chain.{Accepted};

use crate::questions::{arc_of, square};
use crate::{Block, Path};
use line::line::takes;
use plane::point::Point;
use whole::root::is_nearest_root;

// Whether this is its root, by squares; any number may be asked.
pub fn is_root(start: Point, b: Block, root: u64) -> bool
    requires { Accepted start b }
    ensures { result ≡ eqb root (root_of start b) }
{
    match b.path {
        Path::Line => takes(start, b.end, root),
        Path::Arc(_, centre) => is_nearest_root(2 * square(centre), root),
    }
}

// Its cycles, from its root.
pub fn cycles_by(start: Point, b: Block, root: u64) -> u64
    requires { Accepted start b × (root ≡ root_of start b) }
    ensures { result ≡ block_cycles start b }
{
    match b.path {
        Path::Line => root,
        Path::Arc(turn, centre) => arc_of(start, b, turn, centre).cycles(root, start),
    }
}
