// The worked examples of document 01, "Pulses worked by hand", as one table that holds of the definitions.
// The function does nothing; its contract is the claim, so that the check names it.
#![tactic(auto)]

ghost use Rattle.std.specs.Prelude.{T};
ghost use Rattle.worked.specs.Table.{all_hold, table};

pub fn worked_examples()
    ensures { T (all_hold table) }
{}
