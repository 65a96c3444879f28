// What the user demands, claim by claim. The functions do nothing: each contract is a claim, so that the check names it as proved.
#![tactic(auto)]

ghost use Rattle.history.specs.Demand.{EveryHistory, EveryList};
ghost use Rattle.history.specs.Figure.{EveryFigure};
ghost use Rattle.history.specs.Look.{EveryLook, EveryLookOn, EveryLookSum};
ghost use Rattle.demands.specs.Answers.{EveryAnswer};
ghost use Rattle.demands.specs.Arcs.{EveryArc};
ghost use Rattle.demands.specs.Before.{EveryWholeFeed};
ghost use Rattle.demands.specs.Calls.{EveryCall};
ghost use Rattle.demands.specs.FromC.{EveryCallFromC};
ghost use Rattle.demands.specs.Lines.{EveryLine};
ghost use Rattle.demands.specs.Panel.{EveryPanel};
ghost use Rattle.demands.specs.Records.{EveryRecord};
ghost use Rattle.demands.specs.Runs.{EveryRun};
ghost use Rattle.demands.specs.Texts.{EveryText};
ghost use Rattle.demands.specs.TickBytes.{EveryTickByte};

// Demand 1: what each call refuses, and for which cause.
pub fn every_answer()
    ensures { EveryAnswer }
{}

// Demand 1, question 9: which records are sound.
pub fn every_record()
    ensures { EveryRecord }
{}

// Demand 1, where no question refuses: what make, hold, release, stop, a tick at rest and a text line do.
pub fn every_call()
    ensures { EveryCall }
{}

// Demand 2: lines.
pub fn every_line()
    ensures { EveryLine }
{}

// Demand 2: arcs.
pub fn every_arc()
    ensures { EveryArc }
{}

// Demand 2: runs.
pub fn every_run()
    ensures { EveryRun }
{}

// Demand 2: texts, and their listing.
pub fn every_text()
    ensures { EveryText }
{}

// Demand 2: the tick bytes of a text.
pub fn every_tick_byte()
    ensures { EveryTickByte }
{}

// Demand 3, whole.
pub fn every_history()
    ensures { EveryHistory }
{}

// Demand 3 leaves no list of calls out: each has a history from every record.
pub fn every_list()
    ensures { EveryList }
{}

// Request 3: after every call on a sound record the figure is the count made afresh.
pub fn every_figure()
    ensures { EveryFigure }
{}

// Request 1: from any sound record, and so after any history, a look-ahead tells what so many more ticks give.
pub fn every_look()
    ensures { EveryLook }
{}

// Request 1: its sums are the point ahead less the point, and the machine comes back unchanged, for any record.
pub fn every_look_sum()
    ensures { EveryLookSum }
{}

// Request 1: ahead of s + t is ahead of t from the record ahead of s, for any record.
pub fn every_look_on()
    ensures { EveryLookOn }
{}

// Request 4: jobs whose F words have no point give the same pulses on the same ticks as before.
pub fn every_whole_feed()
    ensures { EveryWholeFeed }
{}

// Request 5: what the panel lists of a text, and its check's calls, however the text is cut into pieces.
pub fn every_panel()
    ensures { EveryPanel }
{}

// The demands from C: its calls are the machine's.
pub fn every_call_from_c()
    ensures { EveryCallFromC }
{}
