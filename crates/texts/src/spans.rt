// Where words and lines end.
ghost use Rattle.std.specs.Prelude.{◌≡◌, ◌≤◌, length};
ghost use Rattle.model.specs.Words.{blank, ends_line as EndsLine, ends_word as EndsWord};
ghost use Rattle.texts.specs.Scan.{Opens, Fronts, line_begins};

use super::LineKind;

pub(crate) fn is_blank(b: &u8) -> bool
    ensures { result ≡ blank b.now }
{
    matches!(*b, b' ' | b'\t' | b'\r')
}

pub(crate) fn ends_line(b: &u8) -> bool
    ensures { result ≡ EndsLine b.now }
{
    *b == b'\n'
}

pub(crate) fn ends_word(b: &u8) -> bool
    ensures { result ≡ EndsWord b.now }
{
    ends_line(b) || is_blank(b)
}

// What a line is, by its first byte.
pub(crate) fn kind_of_line(first: u8) -> LineKind
    ensures { Opens first result }
{
    match first as char {
        'c' => LineKind::Comment,
        'p' => LineKind::Problem,
        '0'..='9' | '-' => LineKind::Number,
        _ => LineKind::Other,
    }
}

// Whether a line begins at a place.
pub(crate) fn begins_line(text: &[u8], at: usize) -> bool
    requires { at ≤ length text.now }
    ensures { result ≡ line_begins text.now at }
{
    at == 0 || ends_line(&text[at - 1])
}

// The bytes before the first at which `stops` holds, or all.
pub(crate) fn front<F: FnMut(&u8) -> bool>(bytes: &[u8], stops: F) -> &[u8]
    requires { F.IsAlwaysCallable stops }
    ensures fronts { Fronts F.FnMut stops bytes.now result.now }
    ensures within { length result.now ≤ length bytes.now }
{
    let n = bytes.iter().position(stops).unwrap_or(bytes.len());
    &bytes[..n]
}
