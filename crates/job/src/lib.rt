// The check of a job text: its listing, handed out piece by piece into a lent buffer. How far it has come goes in by value and comes back
// by value.
#![tactic(auto)]

ghost use Rattle.std.specs.Prelude.{◌≡◌, true, false};
ghost use Rattle.row.specs.computed.Buffer.{has_room};
ghost use Rattle.job.specs.computed.Check.{Steps, Fills, check_from, last_of};
ghost use Rattle.job.specs.Check.{is_over, stage_over};

use bench::Bench;
use reader::LONGEST_TEXT;
use row::lines::has_room;
use tally::Tally;

// What comes next: the header, the row of the next text line, or nothing any more.
#[derive(Clone, Copy)]
pub enum Stage {
    Header,
    Lines,
    Over,
}

impl Stage {
    // Whether all is handed out.
    pub fn is_over(self) -> bool
        ensures { result ≡ stage_over self }
    {
        matches!(self, Stage::Over)
    }
}

#[derive(Clone, Copy)]
pub struct Check {
    pub stage: Stage,
    // Where the next line begins in the text.
    pub at: usize,
    pub tally: Tally,
}

// A row written: the place after it, and how far the check has come with it.
#[derive(Drop)]
struct Step {
    next: usize,
    check: Check,
}

// What a buffer got: its first `len` bytes, and how far the check has come with them.
#[derive(Drop)]
pub struct Filled {
    pub len: usize,
    pub check: Check,
}

impl Check {
    // The check of a job that begins at this bench.
    #[tactic(auto, unfolding(crate::specs::computed::Check::check_from))]
    pub fn start(bench: Bench) -> Check
        ensures { result ≡ check_from bench }
    {
        Check {
            stage: Stage::Header,
            at: 0,
            tally: Tally::start(bench),
        }
    }

    // Whether all is handed out.
    pub fn is_over(self) -> bool
        ensures { result ≡ is_over self }
    {
        self.stage.is_over()
    }

    fn last(self, next: usize) -> Step
        ensures { result ≡ last_of self next }
    {
        Step {
            next,
            check: Check {
                stage: Stage::Over,
                ..self
            },
        }
    }

    // The row of the next text line, or the total after the last one.
    fn line(self, text: &[u8], out: &mut [u8], place: usize) -> Step
        requires { (self.stage ≡ Stage.Lines) × (has_room out.old place ≡ true) }
        ensures { Steps self text.now out.old place result out.new }
    {
        if LONGEST_TEXT < text.len() {
            let refused = row::lines::refused(out, place, 1, 30);
            return self.last(refused.unwrap_or(place));
        }
        if text.len() <= self.at {
            let total = self.tally.total(out, place);
            return self.last(total.unwrap_or(place));
        }
        let l = self.tally.read(&text[self.at..], out, place);
        if l.over {
            return self.last(l.next);
        }
        Step {
            next: l.next,
            check: Check {
                stage: Stage::Lines,
                at: self.at + l.bytes + 1,
                tally: l.tally,
            },
        }
    }

    // A match and no closures: what comes next is one of three cases of an enum that C keeps as a word, and each is one call.
    fn step(self, text: &[u8], out: &mut [u8], place: usize) -> Step
        requires { (is_over self ≡ false) × (has_room out.old place ≡ true) }
        ensures { Steps self text.now out.old place result out.new }
    {
        match self.stage {
            Stage::Header => {
                let header = row::lines::header(out, place);
                Step {
                    next: header.unwrap_or(place),
                    check: Check {
                        stage: Stage::Lines,
                        ..self
                    },
                }
            }
            Stage::Lines => self.line(text, out, place),
            Stage::Over => self.last(place),
        }
    }

    // The same check, as the tally says.
    fn settled(self) -> Check
        ensures { result ≡ self }
    {
        Check {
            tally: self.tally.settled(),
            ..self
        }
    }

    // Fills the buffer with whole rows, as long as one more surely fits.
    pub fn fill(self, text: &[u8], out: &mut [u8]) -> Filled
        ensures { Fills self text.now out.old result out.new }
    {
        let mut check = self;
        let mut len = 0;
        while has_room(out.len(), len) && !check.is_over() {
            let step = check.step(text, out, len);
            len = step.next;
            check = step.check.settled();
        }
        Filled { len, check }
    }
}
