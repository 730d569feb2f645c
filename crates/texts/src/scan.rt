// The reader: from token to token over a text.
ghost use Rattle.std.specs.Prelude.{◌≡◌, ◌<◌, false, length, slice_index};
ghost use Rattle.model.specs.Words.{blank, tokens};
ghost use Rattle.texts.specs.Scan.{text_of, rest_of, FirstPart, Gives};

use super::numbers::integer;
use super::spans::{begins_line, ends_line, ends_word, front, is_blank, kind_of_line};
use super::{LineKind, Placed, Reader, Token};
use model::WordFault;

// The part of the text that comes first where no blank does, and its token, unless it is a word that is no number. `fresh` where a line begins.
#[inline(always)]
fn first_part<'a>(rest: &'a [u8], fresh: bool) -> (&'a [u8], Option<Token<'a>>)
    requires some { 0 < length rest.now }
    requires starts { blank (slice_index rest.now 0) ≡ false }
    ensures { FirstPart fresh rest.now result.0.now result.1 }
{
    if ends_line(&rest[0]) {
        return (&rest[..1], Some(Token::LineEnd(&rest[..1])));
    }
    match kind_of_line(rest[0]) {
        LineKind::Comment if fresh => {
            let line = front(rest, ends_line);
            (line, Some(Token::Comment(line)))
        }
        LineKind::Problem if fresh => {
            let line = front(rest, ends_line);
            (line, Some(Token::Problem(line)))
        }
        LineKind::Number => {
            let word = front(rest, ends_word);
            (word, integer(word).map(|x| Token::Number(word, x)))
        }
        // No number begins so.
        _ => (front(rest, ends_word), None),
    }
}

impl<'a> Reader<'a> {
    pub fn over(text: &'a [u8]) -> Reader<'a>
        ensures all { rest_of result ≡ tokens text.now }
        ensures text { text_of result ≡ text.now }
    {
        Reader { text, at: 0 }
    }
}

impl<'a> Iterator for Reader<'a> {
    ghost use Rattle.std.specs.Iterator.{item_count};

    type Item = Result<Placed<'a>, WordFault>;

    ghost next_gives = { Gives };

    ghost remaining = { item_count rest_of };

    // The next token, or nothing at the end. A word that is no number is passed as well.
    // `inline(always)`, here and at `first_part` and `first_read`: as calls they took up to 1.7 times the instructions for a token.
    #[inline(always)]
    fn next(&mut self) -> Option<Result<Placed<'a>, WordFault>> {
        let text = self.text;
        self.at += front(&text[self.at..], |b| !is_blank(b)).len();
        let place = self.at;
        if place == text.len() {
            return None;
        }
        let (part, token) = first_part(&text[place..], begins_line(text, place));
        self.at += part.len();
        Some(
            token
                .map(|token| Placed { place, token })
                .ok_or(WordFault { place }),
        )
    }
}
