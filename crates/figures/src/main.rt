// Figures that are run and compared: the library's calls at their bounds, Table 1 of document 001, and long courses. The
// cases are orders, a line each, in the input.
#![tactic(auto)]

mod course;
mod damage;
mod orders;
mod say;

use std::io;

fn main(rt: HostRuntime) -> io::Result<()> {
    let mut buf = [0u8; 65536];
    let n = reading::read_full(&mut rt.stdin(), &mut buf)?;
    orders::all(&rt, &buf[..n])
}
