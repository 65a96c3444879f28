// A block as a caller gives it in words.
ghost use Rattle.std.specs.Prelude.{◌≡◌};
ghost use Rattle.cmachine.specs.Given.{arc_path, block_given};

use block::{Block, Path};
use circle::plane::{Offset, Turn};
use encoding::number::count;
use plane::point::Point;

pub fn arc(turn: Turn, i: i64, j: i64) -> Path
    ensures { result ≡ arc_path turn i j }
{
    let centre = Offset { x: i, y: j };
    Path::Arc(turn, centre)
}

pub fn block(path: Path, x: i64, y: i64, feed: i64) -> Block
    ensures { result ≡ block_given path x y feed }
{
    let end = Point { x: x, y: y };
    Block {
        path: path,
        end: end,
        feed: count(feed),
    }
}
