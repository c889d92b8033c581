// A taste of the show: sheets torn by a bad cable are refused, and what is in force stays. The script is `stdin`.
#![tactic(auto)]

use std::io;

fn main(rt: HostRuntime) -> io::Result<()> {
    console::run(&rt)
}
