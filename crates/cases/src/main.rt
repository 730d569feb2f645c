// Cabinets worked by hand: what `fitting` prints of each is held to the stored output.
#![tactic(auto)]

use reports::{NotSettled, report};

fn show(rt: &HostRuntime, name: &str, text: &[u8]) -> anyhow::Result<()> {
    let lines = match report(rt.alloc(), text) {
        Ok(lines) | Err(NotSettled::Declined(lines)) => lines,
        Err(NotSettled::Memory(e)) => return Err(e.into()),
    };
    print!(rt; "{name}\n{lines}")?;
    Ok(())
}

fn main(rt: HostRuntime) -> anyhow::Result<()> {
    show(&rt, "no rules over one option", b"p cnf 1 0\n")?;
    show(
        &rt,
        "an option that must be on and off",
        b"p cnf 1 2\n1 0\n-1 0\n",
    )?;
    show(&rt, "a rule without terms", b"p cnf 1 1\n0\n")?;
    show(
        &rt,
        "every pair of two options shut out",
        b"p cnf 2 4\n1 2 0\n1 -2 0\n-1 2 0\n-1 -2 0\n",
    )?;
    show(
        &rt,
        "five rules that fit",
        b"p cnf 4 5\n1 2 0\n-1 -2 0\n-1 3 0\n-3 2 0\n3 4 0\n",
    )?;
    show(
        &rt,
        "and one more, that do not",
        b"p cnf 4 6\n1 2 0\n-1 -2 0\n-1 3 0\n-3 2 0\n3 4 0\n1 -2 0\n",
    )?;
    show(&rt, "a term beyond the options", b"p cnf 2 1\n1 3 0\n")
}
