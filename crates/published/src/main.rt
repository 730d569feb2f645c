// Settles the rule texts that its arguments name, without keeping an argument, so that its length has no limit. The stored output was taken from other
// solvers: see tools/published.
#![tactic(auto)]

use model::Answer;
use orders::by_number::ByNumber;
use records::silent::Silent;
use search::settling::settle;
use search::{Frame, Mark};
use station::StationFile;
use std::{env, fs};
use texts::problems::variables_of;

// The answer to a text, None where it is declined.
fn answer_to(text: &[u8]) -> Option<Answer> {
    let n = variables_of(text)?;
    let mut file = StationFile::new();
    file.start(n, 1).ok()?;
    file.read(text).ok()?;
    let mut sheet = [0u8; 200];
    let mut trail = [Mark::blank(); 200];
    let mut frames = [Frame::blank(); 200];
    settle(
        &file,
        &ByNumber::new(n),
        &mut Silent,
        &mut sheet,
        &mut trail,
        &mut frames,
    )
    .ok()
}

fn main(rt: HostRuntime) -> anyhow::Result<()> {
    for name in env::args(&rt)?.skip(1) {
        let text = fs::read(&rt, name.as_str())?;
        let answer = match answer_to(&text) {
            None => "declined",
            Some(Answer::Fits) => "fits",
            Some(Answer::Cannot(_)) => "cannot",
        };
        println!(rt; "{name} {answer}")?;
    }
    Ok(())
}
