// The program: a text in, its listing out.
#![tactic(auto)]

use std::io;

fn main(rt: HostRuntime) -> io::Result<()> {
    program::list_from(&mut rt.stdin(), &mut rt.stdout())
}
