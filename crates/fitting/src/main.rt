// fitting: reads a rule text from standard input and prints a fit-out that obeys every rule, or the argument that there is none.
#![tactic(auto)]

use anyhow::bail;
use reports::{NotSettled, report};
use std::io::Read;

// The longest text that is read.
const MOST_BYTES: usize = 60_000;

fn main(rt: HostRuntime) -> anyhow::Result<()> {
    let mut text = Vec::new(rt.alloc());
    rt.stdin()
        .take(MOST_BYTES as u64 + 1)
        .read_to_end(&mut text)?;
    if text.len() > MOST_BYTES {
        println!(rt; "declined: the text is longer than {MOST_BYTES} bytes")?;
        bail!("declined");
    }
    match report(rt.alloc(), &text) {
        Ok(lines) => print!(rt; "{lines}")?,
        Err(NotSettled::Declined(lines)) => {
            print!(rt; "{lines}")?;
            bail!("declined");
        }
        Err(NotSettled::Memory(e)) => return Err(e.into()),
    }
    Ok(())
}
