//! Prints the listing of the table that standard input holds.
#![tactic(auto)]

use listing::list_table;
use std::io::Read;

/// One byte more than the longest table has, so that too long an input is seen to be one.
const MOST_INPUT: u64 = 2049;

fn main(rt: HostRuntime) -> anyhow::Result<()> {
    let mut input = Vec::new(rt.alloc());
    rt.stdin().take(MOST_INPUT).read_to_end(&mut input)?;
    rt.print(list_table(rt.alloc(), input.as_slice())?)?;
    Ok(())
}
