// Cabinets worked by hand, shown of the meanings themselves.
#![tactic(auto)]

ghost use Rattle.worked.specs.Trials.{SomeTrial};
ghost use Rattle.worked.specs.Worked.{WorkedCases};

pub fn worked_cases()
    ensures { WorkedCases }
{}

pub fn some_life_has_a_trial()
    ensures { SomeTrial }
{}
