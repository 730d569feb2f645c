// Words that are numbers.
ghost use Rattle.std.specs.Prelude.{◌≡◌};
ghost use Rattle.model.specs.Numbers.{natural as Natural, integer as Integer};
ghost use Rattle.texts.specs.Scan.{Small};

// What 1 to 6 digits write. `parse` takes a plus and any number of zeros, so both tests would stand beside it, and a `try_fold` the bound on each sum.
pub(crate) fn natural(w: &[u8]) -> Option<u32>
    ensures value { result ≡ Natural w.now }
    ensures small { Small result }
{
    if w.is_empty() || w.len() > 6 {
        return None;
    }
    let mut v: u32 = 0;
    for b in w {
        v = v * 10 + (*b as char).to_digit(10)?;
    }
    Some(v)
}

// What a word writes that is a number.
pub(crate) fn integer(w: &[u8]) -> Option<i32>
    ensures { result ≡ Integer w.now }
{
    match w {
        // No minus stands before 0.
        [b'-', digits @ ..] => match natural(digits)? {
            0 => None,
            x => Some(-(x as i32)),
        },
        _ => Some(natural(w)? as i32),
    }
}
