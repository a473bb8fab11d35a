//! Plays a journal from standard input into an account, and prints what was refused, the lines, and
//! their sum.
#![tactic(auto)]

use journal::load;
use report::output;

fn main(rt: HostRuntime) -> anyhow::Result<()> {
    let alloc = rt.alloc();
    let journal = load(alloc, rt.stdin())?;
    rt.print(output(alloc, journal)?)?;
    Ok(())
}
