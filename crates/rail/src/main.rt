// A taste of the show: a wagon on a rail is powered up, homed and sent to its first cue. The script is `stdin`.
#![tactic(auto)]

use std::io;

fn main(rt: HostRuntime) -> io::Result<()> {
    console::run(&rt)
}
