// What `fitting` prints of a text. The words are the planners': option, rule and fit-out for variable, clause and valuation. The layout is in
// docs/fitting.md.
#![tactic(auto)]

ghost use Rattle.std.specs.Prelude.{◌≡◌};
ghost use Rattle.reports.specs.declared.NotSettled.TheVariants.{Memory};

mod places;
mod printing;
#[cfg(test)]
mod tests;

use model::{Answer, FileFault, ReadFault, Reference};
use orders::by_number::ByNumber;
use printing::{Cause, Numbered, Shown};
use records::Record;
use records::lines::Lines;
use search::settling::settle;
use search::{Frame, Mark};
use station::StationFile;
use std::alloc::{AllocError, Global};
use std::fmt::{Display, Write};
use texts::problems::variables_of;

// How many steps an argument may have: lines of 28 bytes.
const MOST_STEPS: usize = 2_000;

// Why a text is not settled: it is declined, in these lines, or memory for what is printed is wanting.
// It is no `std::error::Error`: the programs print the lines of a decline as they stand, and pass on only want of memory.
#[derive(Debug, Drop)]
pub enum NotSettled {
    Declined(String),
    Memory(AllocError),
}

impl From<AllocError> for NotSettled {
    ghost from_gives = { λ e r. r ≡ Memory e };

    fn from(e: AllocError) -> NotSettled {
        NotSettled::Memory(e)
    }
}

// The refusal that prints as `why`.
fn declined<W: Display + Drop>(heap: Global, why: W) -> NotSettled {
    why.to_string(heap)
        .map_or_else(NotSettled::Memory, NotSettled::Declined)
}

// Reads the text into a fresh file, as many options as its problem line says, else 1, and settles it. Gives the lines to print, of a decline too.
pub fn report(heap: Global, text: &[u8]) -> Result<String, NotSettled> {
    report_in(heap, text, |fault| declined(heap, Cause::Reading(fault)))
}

// As `report`, and a fault of the text comes with its line.
pub fn report_with_line(heap: Global, text: &[u8]) -> Result<String, NotSettled> {
    report_in(heap, text, |fault| declined(heap, Shown { text, fault }))
}

// `faulty` gives the refusal for a fault of the text.
fn report_in<F: FnOnce(ReadFault) -> NotSettled>(
    heap: Global,
    text: &[u8],
    faulty: F,
) -> Result<String, NotSettled>
    requires { F.IsAlwaysCallable faulty }
{
    let mut file = StationFile::new();
    file.start(variables_of(text).unwrap_or(1), 1)
        .map_err(|decline| {
            let fault = FileFault { place: 0, decline };
            declined(heap, Cause::Reading(fault.into()))
        })?;
    let rules = file.read(text).map_err(faulty)?;
    settled(heap, &file, rules, text.len())
}

// Settles the file and says how it ended.
fn settled(
    heap: Global,
    file: &StationFile,
    rules: u32,
    size: usize,
) -> Result<String, NotSettled> {
    let n = file.variables() as usize;
    let order = ByNumber::new(n as u32);
    let mut bytes = vec![in heap; 0u8; MOST_STEPS * 28]?;
    let mut sheet = vec![in heap; 0u8; n]?;
    let mut trail = vec![in heap; Mark::blank(); n]?;
    let mut frames = vec![in heap; Frame::blank(); n]?;
    let mut lines = Lines::new(&mut bytes);
    let answer = settle(
        file,
        &order,
        &mut lines,
        &mut sheet,
        &mut trail,
        &mut frames,
    )
    .map_err(|decline| declined(heap, Cause::Search { size, decline }))?;
    let steps = lines.count();
    let mut out = format!(in heap;
        "c {rules} rules over {n} options, {size} bytes read\nc {steps} steps\n"
    )?;
    match answer {
        Answer::Fits => fits(&mut out, &sheet)?,
        Answer::Cannot(closing) => cannot(&mut out, closing, lines.text())?,
    }
    Ok(out)
}

// One literal for each option, and a closing 0.
fn fits(out: &mut String, sheet: &[u8]) -> Result<(), AllocError> {
    out.push_str("fits\nv")?;
    for (option, on) in (1u32..).zip(sheet) {
        let sign = if *on == 1 { "" } else { "-" };
        write!(out, " {sign}{option}")?;
    }
    out.push_str(" 0\n")
}

// The closing reference, and the record's lines as they stand.
fn cannot(out: &mut String, closing: Reference, lines: &[u8]) -> Result<(), AllocError> {
    let closing = Numbered(closing);
    writeln!(out, "cannot {closing}")?;
    for b in lines {
        out.push(*b as char)?;
    }
    Ok(())
}
