ghost use Rattle.std.specs.Prelude.{◌≡◌, min};
ghost use Rattle.orders.specs.Listed.{by_number};
ghost use Rattle.orders.specs.Whole.{by_number_lists};

use super::Order;

// The variables 1, 2, .., n.
#[derive(Drop)]
pub struct ByNumber {
    n: u8,
}

impl ByNumber {
    // A size above 200 is taken as 200.
    pub fn new(size: u32) -> Self
        ensures { by_number result.n ≡ by_number (min size 200) }
    {
        ByNumber {
            n: size.min(200) as u8,
        }
    }
}

impl Order for ByNumber {
    ghost meaning = { λ o. by_number o.n };

    ghost whole = { λ o. by_number_lists o.n };

    fn size(&self) -> u8 {
        self.n
    }

    fn choose(&self, settings: &[u8]) -> Option<u8> {
        // By place: `(1..=n).find(..)` took three tests of the range for each number.
        let few = usize::from(self.n).min(settings.len());
        let at = settings[..few].iter().position(|byte| *byte == 2)?;
        Some(at as u8 + 1)
    }
}
