// The theorems about the search, each held by the contract of a function.
ghost use Rattle.model.specs.Arguments.{FailuresAreFalse, StepsArgue, ArgumentsRefute, FewSteps, FitsAreModels, OneCourse, Ends};

pub fn failures_are_false()
    ensures { FailuresAreFalse }
{}

pub fn steps_argue()
    ensures { StepsArgue }
{}

pub fn arguments_refute()
    ensures { ArgumentsRefute }
{}

pub fn few_steps()
    ensures { FewSteps }
{}

pub fn fits_are_models()
    ensures { FitsAreModels }
{}

pub fn one_course()
    ensures { OneCourse }
{}

pub fn search_ends()
    ensures { Ends }
{}
