ghost use Rattle.std.specs.Prelude.{◌≡◌};
ghost use Rattle.station.specs.Views.{machine};
ghost use Rattle.scan.specs.Tests.{Scanned, added};

use super::settings::Settings;
use super::tests::test;
use super::{Scan, Test};
use station::StationFile;

// The scan with one clause more, the one numbered k, which stands so.
fn add(so_far: Scan, k: u32, r: Test) -> Scan
    ensures { result ≡ added so_far k r }
{
    match r {
        Test::AllFalse => match so_far {
            Scan::Conflict(_) => so_far,
            _ => Scan::Conflict(k),
        },
        Test::Unit(t) => match so_far {
            Scan::Satisfied | Scan::Undecided => Scan::Forced(k, t),
            _ => so_far,
        },
        Test::SomeTrue => so_far,
        Test::Open => match so_far {
            Scan::Satisfied => Scan::Undecided,
            _ => so_far,
        },
    }
}

// How the clauses of a file stand at a setting of its variables.
pub fn scan(file: &StationFile, settings: &Settings) -> Scan
    ensures { Scanned settings.now (machine file.now).clauses result }
{
    let mut so_far = Scan::Satisfied;
    for (k, literals) in (1u32..).zip(file.iter()) {
        so_far = add(so_far, k, test(literals, settings));
        if let Scan::Conflict(_) = so_far {
            return so_far;
        }
    }
    so_far
}
