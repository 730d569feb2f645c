ghost use Rattle.std.specs.Prelude.{◌≡◌, [], ◌∷◌, ◌++◌};
ghost use Rattle.model.specs.Clauses.{Clause};
ghost use Rattle.model.specs.Search.{Setting, value};
ghost use Rattle.clauses.specs.Sets.{code};
ghost use Rattle.scan.specs.Tests.{Tested};

use super::Test;
use super::settings::Settings;
use clauses::Literal;

// The test of a clause with one literal more, which is unset.
fn further(so_far: Test, t: Literal) -> Test
    ensures { (σ : Setting) (C : Clause) → value σ (code t) ≡ 2 → Tested σ C so_far → Tested σ (C ++ (code t ∷ [])) result }
{
    match so_far {
        Test::AllFalse => Test::Unit(t),
        Test::Unit(u) => { if t == u { so_far } else { Test::Open } }
        Test::SomeTrue => Test::SomeTrue,
        Test::Open => Test::Open,
    }
}

// How a clause stands at a setting.
pub fn test(literals: &[i32], settings: &Settings) -> Test
    ensures { Tested settings.now literals.now result }
{
    let mut so_far = Test::AllFalse;
    for number in literals {
        match settings.look(*number) {
            Some(true) => return Test::SomeTrue,
            Some(false) => {}
            None => {
                let t = Literal::try_from(*number).unwrap();
                so_far = further(so_far, t);
            }
        }
    }
    so_far
}
