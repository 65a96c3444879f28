// What a refusal answers: the question that was the first to be answered by no. 01 numbers them, and 02 the last; C and the listings tell
// the number.
#![tactic(auto)]

ghost use Rattle.std.specs.Prelude.{◌≡◌};
ghost use Rattle.question.specs.Question.{number_of};

#[derive(Clone, Copy, Debug, PartialEq, Eq)]
pub enum Question {
    // Of settings.
    Scale,
    Clock,
    Travel,
    // Of a record.
    Sound,
    // Of a block that is given to a load.
    Room,
    Feed,
    EndInTravel,
    Moves,
    Centre,
    EndOnCircle,
    VisitsInTravel,
    // Of a job's text and of its lines.
    TextLength,
    LineLength,
    Words,
    LettersOnce,
    Motion,
    OnPulse,
    MotionAndFeed,
    CentreAsMotion,
    // Of a look ahead.
    LookLength,
}

impl Question {
    // The number that the specification gives it.
    pub fn number(self) -> u64
        ensures { result ≡ number_of self }
    {
        match self {
            Question::Scale => 1,
            Question::Clock => 2,
            Question::Travel => 3,
            Question::Sound => 9,
            Question::Room => 10,
            Question::Feed => 11,
            Question::EndInTravel => 12,
            Question::Moves => 13,
            Question::Centre => 14,
            Question::EndOnCircle => 15,
            Question::VisitsInTravel => 16,
            Question::TextLength => 30,
            Question::LineLength => 31,
            Question::Words => 32,
            Question::LettersOnce => 33,
            Question::Motion => 34,
            Question::OnPulse => 35,
            Question::MotionAndFeed => 36,
            Question::CentreAsMotion => 37,
            Question::LookLength => 38,
        }
    }
}
