// The command for people and scripts. What it answers goes to standard output, trouble to standard error, and the exit status, one digit,
// to descriptor 3 as the last thing that it does: `main` can't hand one back, so the script that starts it does.
#![tactic(auto)]

mod words;

use input::Failure;

fn main(rt: HostRuntime) {
    let status = match words::answer(&rt) {
        Ok(()) => b'0',
        Err(Failure::No) => b'1',
        Err(Failure::Trouble) => b'2',
    };
    io::write_all(3, &[status]);
}
