ghost use Rattle.std.specs.Prelude.{◌≡◌, ◌<◌, [], ◌∷◌, ◌++◌, length};
ghost use Rattle.search.specs.Stacks.{items, places_of};

use super::Stack;

impl<'a, T: Copy> Stack<'a, T> {
    pub(crate) fn over(places: &'a mut [T]) -> Stack<'a, T>
        ensures items { items result ≡ [] }
        ensures places { places_of result ≡ length places.old }
    {
        Stack { places, height: 0 }
    }

    pub(crate) fn height(&self) -> usize
        ensures { result ≡ length (items self.now) }
    {
        self.height
    }

    pub(crate) fn push(&mut self, x: T)
        requires { length (items self.old) < places_of self.old }
        ensures items { items self.new ≡ items self.old ++ (x ∷ []) }
        ensures places { places_of self.new ≡ places_of self.old }
    {
        self.places[self.height] = x;
        self.height += 1;
    }

    // The top, which is taken off; the height was asked before.
    pub(crate) fn pop(&mut self) -> T
        requires { 0 < length (items self.old) }
        ensures items { items self.old ≡ items self.new ++ (result ∷ []) }
        ensures places { places_of self.new ≡ places_of self.old }
    {
        self.height -= 1;
        self.places[self.height]
    }
}
