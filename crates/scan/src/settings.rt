ghost use Rattle.std.specs.Prelude.{◌≡◌, ℕ, ◌≤◌, min, length, slice_set};
ghost use Rattle.model.specs.Clauses.{variable};
ghost use Rattle.model.specs.Search.{entry, put_entry, value, make_true};
ghost use Rattle.model.specs.Arguments.{unset};
ghost use Rattle.clauses.specs.Sets.{code};
ghost use Rattle.scan.specs.Settings.{Looks};

use clauses::Literal;
use std::marker::Model;

// What each of n variables is set to: 0 for off, 1 for on and 2 for unset, in bytes since an order is asked with bytes.
// An array of the most variables, of which the first n stand. No ArrayVec: nothing is ever pushed or popped, and with one (tried, with `get` and
// `checked_sub` in `entry`) this said no more and the search of random texts took 6 % longer, that of pigeonholes 19 to 26 %.
#[derive(Drop)]
pub struct Settings {
    bytes: [u8; 256],
    n: u16,
}

impl Model for Settings {
    ghost use Rattle.std.specs.Prelude.{ℕ, ◌≤◌, List, take};
    ghost use Rattle.scan.specs.Settings.{EachSet};

    ghost Value = { List ℕ };

    ghost view = { λ s. take s.n s.bytes };

    ghost invariant = { λ s. (s.n ≤ 256) × EachSet s.bytes };
}

impl Settings {
    // n variables, each of them unset; a number above 256 is taken as 256.
    pub fn new(n: u16) -> Settings
        ensures { result ≡ unset (min n 256) }
    {
        Settings {
            bytes: [2; 256],
            n: n.min(256),
        }
    }

    // What a variable is set to: 0 and those beyond the last are off.
    fn entry(&self, variable: u32) -> u8
        ensures entry { result ≡ entry self.now variable }
        ensures low { result ≤ 2 }
        ensures few { length self.now ≤ 256 }
    {
        if variable > u32::from(self.n) || variable == 0 {
            return 0;
        }
        self.bytes[variable as usize - 1]
    }

    // Whether a literal is true, if its variable is set.
    pub fn look(&self, literal: i32) -> Option<bool>
        ensures looks { Looks (value self.now literal) result }
        ensures few { length self.now ≤ 256 }
    {
        let off = literal < 0;
        match self.entry(literal.unsigned_abs()) {
            0 => Some(off),
            1 => Some(!off),
            _ => None,
        }
    }

    // Sets a literal true; a variable beyond the last stays.
    pub fn set(&mut self, t: Literal)
        ensures { self.new ≡ make_true self.old (code t) }
    {
        self.put(t, u8::from(t.is_on()));
    }

    // Unsets the variable of a literal.
    pub fn clear(&mut self, t: Literal)
        ensures { self.new ≡ put_entry self.old (variable (code t)) 2 }
    {
        self.put(t, 2);
    }

    fn put(&mut self, t: Literal, setting: u8)
        requires { setting ≤ 2 }
        ensures { self.new ≡ slice_set self.old t.index setting }
    {
        if t.index() < self.n as usize {
            self.bytes[t.index()] = setting;
        }
    }

    // The bytes of the n variables.
    pub fn bytes(&self) -> &[u8]
        ensures { result.now ≡ self.now }
    {
        &self.bytes[..self.n as usize]
    }
}
