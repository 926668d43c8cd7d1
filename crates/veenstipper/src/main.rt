// The program: the rank of the folder that it is run in.
#![tactic(auto)]

use std::io;

fn main(rt: HostRuntime) -> io::Result<()> {
    loader::run(&rt, b"")
}
