ghost use Rattle.std.specs.Prelude.{◌≡◌, min, [], ◌∷◌};
ghost use Rattle.orders.specs.Listed.{listed, by_preference};
ghost use Rattle.orders.specs.Listing.{list_of, order_of};

use super::Listing;
use arrayvec::ArrayVec;

impl Listing {
    // The preferences in turn, and then the other variables by number.
    pub fn of(size: u32, preferences: &[u32]) -> Self
        ensures { order_of result ≡ by_preference (min size 200) preferences.now }
    {
        let mut listing = Listing::new(size);
        let others = 1..=u32::from(listing.size());
        for k in preferences.iter().copied().chain(others) {
            listing.add(k);
        }
        listing
    }

    // No variable listed yet; a size above 200 is taken as 200.
    fn new(size: u32) -> Self
        ensures capped { result.size ≡ min size 200 }
        ensures empty { list_of result ≡ [] }
    {
        Listing {
            size: size.min(200) as u8,
            list: ArrayVec::new(),
        }
    }

    pub fn size(&self) -> u8
        ensures { result ≡ self.now.size }
    {
        self.size
    }

    pub fn as_slice(&self) -> &[u8]
        ensures { result.now ≡ list_of self.now }
    {
        &self.list
    }

    // Adds a number that is one of 1 to size and not listed yet; skips any other.
    fn add(&mut self, number: u32)
        ensures sized { self.new.size ≡ self.old.size }
        ensures added { list_of self.new ≡ listed self.old.size (list_of self.old) (number ∷ []) }
    {
        let Ok(variable) = u8::try_from(number) else {
            return;
        };
        if (1..=self.size).contains(&variable) && !self.list.contains(&variable) {
            self.list.push(variable);
        }
    }
}
