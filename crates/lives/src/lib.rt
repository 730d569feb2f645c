// The law over the whole life of a station file, and what checking an argument is worth, each held by the contract of a function.
#![tactic(auto)]

ghost use Rattle.lives.specs.Lives.{EveryLife, Exact};

pub fn every_life()
    ensures { EveryLife }
{}

pub fn checking_is_exact()
    ensures { Exact }
{}
