//! Plays each journal of which the file is named as an argument, into a new account each, and
//! prints the statements of all months, under a row with the file's name.
#![tactic(auto)]

use anyhow::Context;
use journal::load;
use report::months_output;
use std::{env, fs};

fn main(rt: HostRuntime) -> anyhow::Result<()> {
    let alloc = rt.alloc();
    for name in env::args(&rt)?.skip(1) {
        let file = fs::open(&rt, name.as_str()).context(name.as_str())?;
        let journal = load(alloc, file).context(name.as_str())?;
        rt.print(months_output(alloc, &name, journal)?)?;
    }
    Ok(())
}
