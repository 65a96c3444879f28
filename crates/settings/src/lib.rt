// The settings of a table, and questions 1 to 3.
#![tactic(auto)]

ghost use Rattle.std.specs.Prelude.{◌≡◌};
ghost use Rattle.settings.specs.Settings.{capacity_of, standard_settings};
ghost use Rattle.settings.specs.computed.Settings.{axis_right, travel_right, settings_no, ask_settings};

use plane::travel::{Range, Travel};
use question::Question;

#[derive(Clone, Copy)]
pub struct Settings {
    // p, pulses per millimetre
    pub scale: u64,
    // w, ticks per second
    pub clock: u64,
    pub travel: Travel,
}

#[tactic(auto, unfolding(crate::specs::computed::Settings::axis_right, plane::specs::Travel::within_of))]
fn axis_right(axis: Range) -> bool
    ensures { result ≡ axis_right axis }
{
    (-1_000_000..=0).contains(&axis.lower) && (0..=1_000_000).contains(&axis.upper)
}

#[tactic(auto, unfolding(crate::specs::computed::Settings::travel_right))]
fn travel_right(travel: Travel) -> bool
    ensures { result ≡ travel_right travel }
{
    axis_right(travel.x) && axis_right(travel.y)
}

// The first question that is answered by no, where one is.
#[tactic(auto, unfolding(crate::specs::computed::Settings::ask_settings))]
pub fn ask_settings(s: Settings) -> Result<(), Question>
    ensures { result ≡ ask_settings s }
{
    if !(1..=1_000).contains(&s.scale) {
        return Err(Question::Scale);
    }
    if !(1_000..=20_000).contains(&s.clock) {
        return Err(Question::Clock);
    }
    if !travel_right(s.travel) {
        return Err(Question::Travel);
    }
    Ok(())
}

// Feed numbers are thousandths of a pulse per minute: 60,000 of them are a pulse per second.
const CAPACITY_PER_HERTZ: u64 = 60_000;

// q0, the capacity of the feed divider, of settings that have been tested.
pub fn capacity(s: Settings) -> u64
    requires { settings_no s ≡ 0 }
    ensures { result ≡ capacity_of s }
{
    CAPACITY_PER_HERTZ * s.clock
}

// p 50, w 5,000 and the widest travel: what a refused make hands back, and what the programs take.
pub fn standard() -> Settings
    ensures { result ≡ standard_settings }
{
    let axis = Range {
        lower: -1_000_000,
        upper: 1_000_000,
    };
    Settings {
        scale: 50,
        clock: 5_000,
        travel: Travel { x: axis, y: axis },
    }
}
