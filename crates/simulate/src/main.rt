// A taste of the workshop: settings are tried on a paper rail before any axis sees them. The script is `stdin`.
#![tactic(auto)]

use std::io;

fn main(rt: HostRuntime) -> io::Result<()> {
    console::run(&rt)
}
