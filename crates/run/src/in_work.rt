// What is in work, and all else that its ticks depend on. The types say that it is sound, so that a run of it asks nothing more.
ghost use Rattle.work.specs.declared.Work.TheVariants.{Line, Arc};
ghost use Rattle.run.specs.computed.Sound.{Runs};

use arc::arc::Arc;
use line::line::Line;
use plane::point::Point;
use work::Work;

#[derive(Clone, Copy)]
pub struct InWork {
    pub capacity: u64,
    pub at: Point,
    pub remainder: u64,
    pub work: Work,
    // A line or an arc, sound where it stands.
    pub ghost sound: { Runs capacity at remainder work },
}

#[derive(Clone, Copy)]
pub struct LineInWork {
    pub capacity: u64,
    pub at: Point,
    pub remainder: u64,
    pub line: Line,
    pub ghost sound: { Runs capacity at remainder (Line line) },
}

#[derive(Clone, Copy)]
pub struct ArcInWork {
    pub capacity: u64,
    pub at: Point,
    pub remainder: u64,
    pub arc: Arc,
    pub ghost sound: { Runs capacity at remainder (Arc arc) },
}
