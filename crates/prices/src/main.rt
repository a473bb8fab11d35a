//! Prints what a fixed set of months costs on every class, pipeline and rider.
#![tactic(auto)]

mod cases;
mod days;
mod terms;

use cases::output;

fn main(rt: HostRuntime) -> anyhow::Result<()> {
    rt.print(output(rt.alloc())?)?;
    Ok(())
}
