//! Worked examples of the definitions.
#![tactic(auto)]

ghost use Rattle.std.specs.Prelude.{◌≡◌, true};
ghost use Rattle.worked.specs.Cases.{all_yield, cases};

/// The definitions yield every example of the list.
pub fn worked_cases_hold()
    ensures { all_yield cases ≡ true }
{}
