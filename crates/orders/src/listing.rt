ghost use Rattle.std.specs.Prelude.{◌≡◌, ◌≤◌, length};
ghost use Rattle.orders.specs.Listed.{tally};

use arrayvec::ArrayVec;

mod adding;

// Some of the variables 1 to size, each once.
#[derive(Drop)]
pub struct Listing {
    size: u8,
    list: ArrayVec<u8, 200>,
    ghost small: { size ≤ 200 },
    ghost distinct: { tally size list.items ≡ length list.items },
}
