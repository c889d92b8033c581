// A taste of the show: a low maximum torque holds, whatever is asked and whatever the limit sets allow. The script is `stdin`.
#![tactic(auto)]

use std::io;

fn main(rt: HostRuntime) -> io::Result<()> {
    console::run(&rt)
}
