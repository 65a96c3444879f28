// A bench that has passed the test, by its type: the calls that come after the test ask nothing more.
ghost use Rattle.std.specs.Prelude.{◌≡◌, true};
ghost use Rattle.bench.specs.computed.Bench.{sound_of};

use crate::Bench;

#[derive(Clone, Copy)]
pub struct SoundBench {
    pub bench: Bench,
    pub ghost sound: { sound_of bench ≡ true },
}
