// Writing a station file as a rule text.
#![tactic(auto)]

ghost use Rattle.std.specs.Prelude.{◌≡◌, length};
ghost use Rattle.model.specs.Writing.{text_of, Writes};
ghost use Rattle.station.specs.Views.{machine};
ghost use Rattle.writing.specs.Back.{GivesBack};
ghost use Rattle.writing.specs.Sinks.{written};

use model::Decline;
use sinks::{Front, Length};
use spelling::text;
use station::StationFile;

mod sinks;
mod spelling;
#[cfg(test)]
mod tests;

// How many bytes the text of a file has.
fn text_length(file: &StationFile) -> usize
    ensures { result ≡ length (text_of (machine file.now)) }
{
    let mut count = Length { bytes: 0 };
    text(&mut count, file);
    count.bytes
}

// Writes the text of a file over the front of a buffer.
fn fill(buffer: &mut [u8], file: &StationFile)
    ensures { buffer.new ≡ written (text_of (machine file.now)) buffer.old }
{
    let mut front = Front::over(buffer);
    text(&mut front, file);
}

// Writes the text of a file at the front of a buffer that is long enough, and answers its length.
pub fn write(file: &StationFile, buffer: &mut [u8]) -> Result<usize, Decline>
    ensures writes { Writes (machine file.now) buffer.old buffer.new result }
    ensures back { GivesBack (machine file.now) buffer.new result }
{
    file.started()?;
    let length = text_length(file);
    if buffer.len() < length {
        return Err(Decline::ShortBuffer);
    }
    fill(buffer, file);
    Ok(length)
}
