// A drill of the L1 cache: some hundred operations on an L1 with the cache, and the same ones on a plain L1, of a guest that is a POWER10
// and again of one that is a POWER9. It prints how many, and for each guest its PVR, a digest of all that each L1 saw, and one of the
// inputs that the cache wrote. The first two digests are equal.
#![tactic(auto)]

mod cached;
mod digest;
mod draw;
mod plain;
mod start;

use draw::OPERATIONS;
use std::io;

fn drill(rt: &impl Print, pvr: u32) -> io::Result<()> {
    let cached = cached::drill(pvr);
    let plain = plain::drill(pvr);
    println!(rt; "PVR {pvr:08x}")?;
    println!(rt; "cached {:08x}", cached.all)?;
    println!(rt; "plain  {plain:08x}")?;
    println!(rt; "inputs {:08x}", cached.inputs)
}

fn main(rt: HostRuntime) -> io::Result<()> {
    println!(rt; "operations {OPERATIONS}")?;
    drill(&rt, 0x0F00_0006)?;
    drill(&rt, 0x0F00_0005)
}
