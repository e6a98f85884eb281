// Says of each file that the arguments name whether it passes, or what is wrong, where, and what to change.
// With no name it reads standard input. Behind the word `list` it prints the operators of each job too, behind the word `rgb` pages start in RGB and not in gray.
// A digit on descriptor 3 says whether all pass (0), one is refused (1) or one was not read (2).
#![tactic(auto)]

mod judging;
mod named;
mod unread;

use std::io;

fn main(rt: HostRuntime) -> io::Result<()> {
    named::judge(&rt)
}
