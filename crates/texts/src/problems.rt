// The problem line.
ghost use Rattle.std.specs.Prelude.{◌≡◌};
ghost use Rattle.model.specs.Words.{tokens};
ghost use Rattle.model.specs.Reading.{counts, spellings, variables_in};

use super::numbers::natural;
use super::{LineWords, Reader, Token};
use model::ProblemLine;

// The counts of a problem line, if it is well formed.
pub fn counts_of(line: &[u8]) -> Option<ProblemLine>
    ensures { result ≡ counts (spellings line.now) }
{
    let mut words = LineWords { rest: line };
    let p = words.next()?;
    let cnf = words.next()?;
    let variables = natural(words.next()?)?;
    let clauses = natural(words.next()?)?;
    if p != b"p".as_slice() || cnf != b"cnf".as_slice() || words.next().is_some() {
        return None;
    }
    Some(ProblemLine { variables, clauses })
}

// The variable count of a text's first problem line, if that is well formed.
pub fn variables_of(text: &[u8]) -> Option<u32>
    ensures { result ≡ variables_in (tokens text.now) }
{
    for p in Reader::over(text) {
        let Ok(p) = p else {
            continue;
        };
        if let Token::Problem(line) = p.token {
            return Some(counts_of(line)?.variables);
        }
    }
    None
}
