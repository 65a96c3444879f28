// The gap to the next cycle.
ghost use Rattle.std.specs.Prelude.{◌≡◌, ◌+◌, ◌*◌, ◌^◌, ◌≤◌, ◌<◌};
ghost use Rattle.work.specs.computed.Sound.{Feed};
ghost use Rattle.circle.specs.computed.Charge.{move_charge};
ghost use Rattle.run.specs.computed.Gap.{gap_of, divided_of, limit_of, next_gap, remainder_at, if_less, by_move, Before, ArcGap};

use circle::step::{Move, move_charge};

// The ticks before the one that does the next cycle, counted from the run's first, and the remainder after it.
#[derive(Drop)]
pub struct Gap {
    pub ticks: u64,
    pub remainder: u64,
}

// A due beside what a tick adds: so many whole ticks, and what is over.
#[derive(Clone, Copy)]
pub struct Divided {
    pub whole: u64,
    pub over: u64,
}

#[tactic(auto, unfolding(crate::specs::computed::Gap::divided_of))]
pub fn divide(due: u64, added: u64) -> Divided
    requires { 1 ≤ added }
    ensures { result ≡ divided_of due added }
{
    let whole = due / added;
    Divided {
        whole,
        over: due - whole * added,
    }
}

// The gap to a cycle of this due, by a division: the remainder may be more than a tick adds, and a made-up one even more than the due.
#[tactic(auto, unfolding(crate::specs::computed::Gap::gap_of))]
pub fn first_gap(due: u64, added: u64, remainder: u64) -> Gap
    requires { Feed due added × (due ≤ 1696800000000) × (remainder ≤ 1696800000000) }
    ensures { result ≡ gap_of due added remainder }
{
    if due <= remainder {
        return Gap {
            ticks: 0,
            remainder: remainder + added - due,
        };
    }
    let ticks = (due - 1 - remainder) / added;
    Gap {
        ticks: ticks,
        remainder: remainder + ticks * added + added - due,
    }
}

// Both choose a number without a branch, which along an arc the processor could not predict.
fn if_less(a: u64, b: u64, n: u64) -> u64
    ensures { result ≡ if_less a b n }
{
    if a < b { n } else { 0 }
}

fn by_move(m: Move, straight: u64, diagonal: u64) -> u64
    ensures { result ≡ by_move m straight diagonal }
{
    match m {
        Move::Rise => straight,
        Move::Slant => diagonal,
        Move::Fall => straight,
    }
}

// The gap after a gap's cycle, by a division, which only a made-up remainder needs: out of line, so that no loop has it in its turn.
#[cold]
#[inline(never)]
fn next_by_division(gap: Gap, due: u64, added: u64) -> Gap
    requires { Feed due added × (due ≤ 1696800000000) × (gap.remainder ≤ 1696800000000) × (gap.ticks + 4000000000000 < 2 ^ 64) }
    ensures { result ≡ next_gap due added gap }
{
    let more = first_gap(due, added, gap.remainder);
    Gap {
        ticks: gap.ticks + 1 + more.ticks,
        remainder: more.remainder,
    }
}

// The parts tell the next gap after any remainder below this: what a tick adds. Parts of one whole tick tell it after every remainder, so
// that no turn divides on a line at full feed, where a made-up remainder stays to the end.
#[tactic(auto, unfolding(crate::specs::computed::Gap::limit_of))]
pub fn limit(added: u64, parts: Divided) -> u64
    ensures { result ≡ limit_of added parts }
{
    if parts.whole == 1 { u64::MAX } else { added }
}

// The gap after a gap's cycle, to a cycle of this due, divided before the first gap. A cycle leaves less than a tick adds; then it is
// `whole` ticks more, or one more: no division. Only after a made-up remainder more can be left.
pub fn next_gap(due: u64, added: u64, parts: Divided, limit: u64, gap: Gap) -> Gap
    requires { Feed due added × (parts ≡ divided_of due added) × (2 ≤ parts.whole → limit ≤ added) × (due ≤ 1696800000000)
        × (gap.remainder ≤ 1696800000000) × (gap.ticks + 4000000000000 < 2 ^ 64) }
    ensures { result ≡ next_gap due added gap }
{
    if limit <= gap.remainder {
        return next_by_division(gap, due, added);
    }
    let late = if_less(gap.remainder, parts.over, 1);
    let more = if_less(gap.remainder, parts.over, added);
    Gap {
        ticks: gap.ticks + parts.whole + late,
        remainder: gap.remainder + more - parts.over,
    }
}

// The gap after a gap's cycle on an arc, to a straight step or to a diagonal one, whose dues are divided.
pub fn arc_gap(
    capacity: u64,
    added: u64,
    straight: Divided,
    diagonal: Divided,
    m: Move,
    gap: Gap,
) -> Gap
    requires { ArcGap capacity added straight diagonal gap }
    ensures { result ≡ next_gap (move_charge m * capacity) added gap }
{
    let due = move_charge(m) * capacity;
    let parts = Divided {
        whole: by_move(m, straight.whole, diagonal.whole),
        over: by_move(m, straight.over, diagonal.over),
    };
    // No limit of the parts: the next diagonal step takes a made-up remainder off.
    next_gap(due, added, parts, added, gap)
}

// The remainder after n ticks, none of which does the gap's cycle.
#[tactic(auto, unfolding(crate::specs::computed::Gap::remainder_at))]
pub fn remainder_at(due: u64, added: u64, gap: Gap, n: u64) -> u64
    requires { Before due added gap n }
    ensures { result ≡ remainder_at due added gap n }
{
    gap.remainder + due - (gap.ticks + 1 - n) * added
}
