// Orders: which variable the search chooses next.
#![tactic(auto)]

ghost use Rattle.std.specs.Prelude.{◌≡◌, ◌==◌};
ghost use Rattle.model.specs.Search.{entry};
ghost use Rattle.model.specs.Settling.{OrderMeaning, Lists, Chooses};

pub mod by_number;
pub mod by_preference;
mod listing;

// An order means a size n and a list of the variables 1 to n.
pub trait Order {
    ghost meaning: { Self → OrderMeaning };

    // the list has each variable once: a member that is a proof, since an `impl` with a lifetime takes no `law`
    ghost whole: { (s : Self) → Lists (meaning s) };

    fn size(&self) -> u8
        ensures { result ≡ (meaning self.now).size };

    // The first variable of the list whose byte is 2 (unset), if there is one; missing bytes and other values count as set.
    // In bytes, 0, 1 and 2: that is the call that the project asked for.
    fn choose(&self, settings: &[u8]) -> Option<u8>
        ensures { Chooses settings.now (meaning self.now).list result };
}

// Variable 0 has no place: one before it wraps to a place beyond every slice.
fn is_unset(settings: &[u8], variable: u8) -> bool
    ensures { result ≡ (entry settings.now variable == 2) }
{
    settings
        .get(usize::from(variable).wrapping_sub(1))
        .is_some_and(|byte| *byte == 2)
}

#[cfg(test)]
mod tests;
