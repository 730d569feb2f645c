ghost use Rattle.std.specs.Prelude.{◌≡◌, ℕ, ◌<◌, ◌≤◌, min, true};
ghost use Rattle.orders.specs.Listed.{holds, by_preference};
ghost use Rattle.orders.specs.Listing.{list_of, order_of};
ghost use Rattle.orders.specs.Whole.{listing_lists};

use super::listing::Listing;
use super::{Order, is_unset};

// The preferences in turn, and then the other variables by number.
#[derive(Drop)]
pub struct ByPreference {
    listing: Listing,
    ghost whole: { ((k : ℕ) → 0 < k → k ≤ listing.size → holds (list_of listing) k ≡ true) },
}

impl ByPreference {
    // Repeats and numbers outside 1 to size are skipped; a size above 200 is taken as 200.
    pub fn new(size: u32, preferences: &[u32]) -> Self
        ensures { order_of result.listing ≡ by_preference (min size 200) preferences.now }
    {
        ByPreference {
            listing: Listing::of(size, preferences),
        }
    }
}

impl Order for ByPreference {
    ghost meaning = { λ o. order_of o.listing };

    ghost whole = { λ o. listing_lists o.listing.size (list_of o.listing) o.listing.distinct o.whole };

    fn size(&self) -> u8 {
        self.listing.size()
    }

    fn choose(&self, settings: &[u8]) -> Option<u8> {
        self.listing
            .as_slice()
            .iter()
            .copied()
            .find(|v| is_unset(settings, *v))
    }
}
