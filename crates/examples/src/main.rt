// The rehearsed examples of document 01, starred and unstarred. The script is `stdin`.
#![tactic(auto)]

use std::io;

fn main(rt: HostRuntime) -> io::Result<()> {
    console::run(&rt)
}
