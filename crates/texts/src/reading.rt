// What the tokens of a text say: the problem line, and the numbers after it.
ghost use Rattle.std.specs.Prelude.{◌≡◌};
ghost use Rattle.texts.specs.Scan.{text_of};
ghost use Rattle.texts.specs.Steps.{Begins, Spells, Found, Heads, Counts};

use super::problems::counts_of;
use super::{Numeral, Placed, Reader, Token};
use model::{TextFault, WordFault};

// One token before the problem line: the clause count, where it is that line, in a text for n variables.
fn begun(n: u32, p: Result<Placed<'_>, WordFault>) -> Result<Option<u32>, TextFault>
    ensures { Begins n p.entry result }
{
    let p = p?;
    match p.token {
        Token::Comment(_) | Token::LineEnd(_) => Ok(None),
        Token::Number(_, _) => Err(TextFault::Problem(p.place)),
        Token::Problem(line) => {
            let counts = counts_of(line).ok_or(TextFault::Problem(p.place))?;
            if counts.variables != n {
                return Err(TextFault::Variables(p.place));
            }
            Ok(Some(counts.clauses))
        }
    }
}

// One token after it: a number, unless a line ends.
fn spelled(p: Result<Placed<'_>, WordFault>) -> Result<Option<Numeral>, TextFault>
    ensures { Spells p.entry result }
{
    let Placed { place, token } = p?;
    match token {
        Token::Number(_, value) => Ok(Some(Numeral { place, value })),
        Token::LineEnd(_) => Ok(None),
        Token::Comment(_) => Err(TextFault::InWord(WordFault { place })),
        Token::Problem(_) => Err(TextFault::Problem(place)),
    }
}

impl<'a> Reader<'a> {
    // What is read of the first token of which anything is, or nothing at the end, which `find_map` does not promise to have reached.
    #[inline(always)]
    fn first_read<T, F>(&mut self, reads: F) -> Result<Option<T>, TextFault>
    where
        T: Drop,
        F: Fn(Result<Placed<'a>, WordFault>) -> Result<Option<T>, TextFault>,
        requires { F.IsAlwaysCallable reads }
        ensures { Found (F.post reads) self.old self.new result }
    {
        // Tried: `for p in self.by_ref()`; `next` of a `&mut` iterator does not promise to keep that reference, so the reader is unknown after the loop.
        while let Some(p) = self.next() {
            if let Some(x) = reads(p)? {
                return Ok(Some(x));
            }
        }
        Ok(None)
    }

    // Passes comments and the problem line: its clause count, or nothing where the text has no such line.
    pub fn heading(&mut self, n: u32) -> Result<Option<u32>, TextFault>
        ensures heads { Heads n self.old self.new result }
        ensures text { text_of self.new ≡ text_of self.old }
    {
        self.first_read(|p| begun(n, p))
    }

    // The next number after the problem line, or nothing at the end of the text.
    pub fn number(&mut self) -> Result<Option<Numeral>, TextFault>
        ensures counts { Counts self.old self.new result }
        ensures text { text_of self.new ≡ text_of self.old }
    {
        self.first_read(spelled)
    }
}
