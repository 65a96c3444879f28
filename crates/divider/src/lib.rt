// The feed divider (document 01, "Feed divider"; source 000): a DDA integrator whose overflows are the cycles of the block in work.
// Document 02 §2 charges cycles, so the capacity at which it overflows is the due of the next cycle, its charge times q0; a tick adds 1,000
// times the feed number.
#![tactic(auto)]

ghost use Rattle.std.specs.Prelude.{◌≡◌, ◌+◌, ◌*◌, ◌^◌, ◌≤◌, ◌<◌};
ghost use Rattle.divider.specs.Divider.{fed_of};
ghost use Rattle.divider.specs.computed.Divider.{gone_of, last_tick, ending_of};

// A tick adds this times the feed number: charges are thousandths of what a straight step costs.
pub const FEED_SCALE: u64 = 1_000;

// What a working tick gives. The sum is that of `line::register::clock`, and both stay: `fed_of` and `clock_of`, which are to be believed,
// say it in the words of two sources, here of a remainder and a cycle, there of a register and a pulse.
#[derive(Drop)]
pub struct Fed {
    pub remainder: u64,
    pub cycle: bool,
}

// One working tick: on reaching the due of the next cycle the due is taken off, and the cycle is done.
pub fn add_feed(due: u64, added: u64, remainder: u64) -> Fed
    requires { remainder + added < 2 ^ 64 }
    ensures { result ≡ fed_of due added remainder }
{
    let sum = remainder + added;
    if due <= sum {
        Fed {
            remainder: sum - due,
            cycle: true,
        }
    } else {
        Fed {
            remainder: sum,
            cycle: false,
        }
    }
}

// What so many working ticks give: the cycles done, and the remainder after them.
#[derive(Drop)]
pub struct Gone {
    pub cycles: u64,
    pub remainder: u64,
}

// So many working ticks at once, whatever their number, where every cycle has this due. Callers ask first whether the block lasts so long.
pub fn add_feeds(due: u64, added: u64, remainder: u64, ticks: u64) -> Gone
    requires { (1 ≤ added) × (added ≤ due) × (remainder + ticks * added < 2 ^ 64) }
    ensures { result ≡ gone_of (λ c. due) added remainder ticks }
{
    let sum = remainder + ticks * added;
    let paid = sum / due;
    // No `min`: the definition's two cases, a cycle in each tick or as many as are paid, leave two remainders.
    if ticks < paid {
        return Gone {
            cycles: ticks,
            remainder: sum - ticks * due,
        };
    }
    Gone {
        cycles: paid,
        remainder: sum % due,
    }
}

// The working tick, counted from 1, on which a block with so many cycles left ends, whose dues are together `due`. In a history the sum
// decides; after a remainder that no history leaves there may be more cycles than ticks that the sum takes, and each has a tick of its own.
#[tactic(auto, using(crate::specs::laws::Last::last_paid))]
pub fn last_tick(due: u64, added: u64, remainder: u64, cycles: u64) -> u64
    requires { (1 ≤ added) × (due + added < 2 ^ 64) }
    ensures { result ≡ last_tick due added remainder cycles }
{
    if due <= remainder {
        return cycles;
    }
    let ticks = (due - remainder + (added - 1)) / added;
    cycles.max(ticks)
}

// How a block ends: the working tick on which it does, counted from 1, and the remainder that goes over to the next.
#[derive(Drop)]
pub struct End {
    pub tick: u64,
    pub remainder: u64,
}

pub fn ending(due: u64, added: u64, remainder: u64, cycles: u64) -> End
    requires { (1 ≤ added) × (cycles * added ≤ due) × (due + added + remainder < 2 ^ 64) }
    ensures { result ≡ ending_of due added remainder cycles }
{
    let tick = last_tick(due, added, remainder, cycles);
    End {
        tick,
        remainder: remainder + tick * added - due,
    }
}
