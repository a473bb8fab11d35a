//! Lists a journal from standard input, a row for each record.
#![tactic(auto)]

use journal::load;
use report::journal_listing;

fn main(rt: HostRuntime) -> anyhow::Result<()> {
    let alloc = rt.alloc();
    let journal = load(alloc, rt.stdin())?;
    rt.print(journal_listing(alloc, journal)?)?;
    Ok(())
}
