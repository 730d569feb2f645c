ghost use Rattle.std.specs.Prelude.{◌≡◌};
ghost use Rattle.model.specs.Declines.{number_of};

use super::Decline;

impl Decline {
    // The number under which docs/declines.md lists the cause. No `as` gives it, since the numbers have a gap and two cases carry a step; `number` says more at
    // a call than `u8::from`.
    pub fn number(self) -> u8
        ensures { result ≡ number_of self }
    {
        match self {
            Decline::BadSize => 1,
            Decline::TrialStands => 2,
            Decline::NotStarted => 3,
            Decline::BadLiteral => 4,
            Decline::WideClause => 5,
            Decline::ClausesFull => 6,
            Decline::LiteralsFull => 7,
            Decline::SlipFilled => 8,
            Decline::TrialsFull => 9,
            Decline::SlipBlank => 10,
            Decline::OtherFile => 11,
            Decline::NotLatest => 12,
            Decline::OtherSize => 13,
            Decline::FewPlaces => 14,
            Decline::RecordUsed => 15,
            Decline::FewClausePlaces => 16,
            Decline::NamesNothing(_) => 17,
            Decline::LacksVariable(_) => 18,
            Decline::NotClosing => 19,
            Decline::ShortBuffer => 24,
            Decline::RecordFull => 25,
        }
    }
}
