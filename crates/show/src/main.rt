// The program: settings words and ticks as lines of standard input, answers as lines of standard output.
#![tactic(auto)]

use std::io;

fn main(rt: HostRuntime) -> io::Result<()> {
    console::run(&rt)
}
