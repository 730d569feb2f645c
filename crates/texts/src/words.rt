// The words of a line, one by one.
use super::LineWords;
use super::spans::{ends_word, front};

impl<'a> Iterator for LineWords<'a> {
    ghost use Rattle.std.specs.Iterator.{YieldsFirstRef, item_count};
    ghost use Rattle.texts.specs.Scan.{words_left};

    type Item = &'a [u8];

    ghost next_gives = { YieldsFirstRef words_left };

    ghost remaining = { item_count words_left };

    // By `front`, as the reader. Tried: `split` and `filter`, for which each blank ends an empty part.
    fn next(&mut self) -> Option<&'a [u8]> {
        let line = self.rest;
        let blanks = front(line, |b| !ends_word(b)).len();
        let rest = &line[blanks..];
        let word = front(rest, ends_word);
        self.rest = &rest[word.len()..];
        if word.is_empty() {
            return None;
        }
        Some(word)
    }
}
