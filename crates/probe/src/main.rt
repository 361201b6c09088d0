// Drives every entry of the planner from one standard input, for tests in other languages. A request is a letter, 4 bytes of
// payload length, low byte first, and the payload; each is answered by one line, at once.
#![tactic(auto)]

ghost use Rattle.std.specs.Prelude.{◌≤◌};

// Reads some of so many bytes, and drops them.
fn drop_some(left: u64, space: &mut [u8]) -> u64
    ensures { result ≤ left }
{
    let want = left.min(space.len() as u64) as usize;
    io::read_full(0, &mut space[..want]) as u64
}

// Reads and drops so many bytes; whether they were all there.
fn skip(n: u64, space: &mut [u8]) -> bool {
    let mut left = n;
    while left > 0 {
        let got = drop_some(left, space);
        if got == 0 {
            return false;
        }
        left -= got;
    }
    true
}

fn answer(letter: u8, p: &[u8]) {
    match letter {
        b'R' => probe_files::read_request(p),
        b'W' => probe_files::write_request(p),
        b'B' => probe_bounds::bounds_request(p),
        b'N' => probe_bounds::second_request(p),
        b'P' => probe_bounds::path_request(p),
        b'C' => probe_bounds::enough_request(p),
        b'G' => probe_gains::gains_request(p),
        b'A' => probe_gains::altered_request(p),
        b'S' => probe_runs::start_request(p),
        b'T' => probe_runs::tick_request(p, false),
        b'I' => probe_runs::tick_request(p, true),
        b'D' => probe_runs::late_request(p),
        b'X' => probe_runs::run_request(p),
        b'L' => probe_logs::replay_request(p),
        b'O' => probe_logs::log_request(p),
        b'U' => probe_stg::read_request(p),
        b'V' => probe_stg::write_request(p),
        b'M' => probe_mend::mend_request(p),
        _ => print::bad(),
    }
}

// The payload of so many bytes, which the space has, read and answered; whether it was all there.
fn payload(letter: u8, long: u64, space: &mut [u8]) -> bool {
    let n = long.min(space.len() as u64) as usize;
    let p = &mut space[..n];
    let got = io::read_full(0, p);
    if got < n {
        print::bad();
        return false;
    }
    answer(letter, p);
    true
}

// One request; whether another may follow.
fn turn(space: &mut [u8]) -> bool {
    let mut head = [0u8; 5];
    let got = io::read_full(0, &mut head);
    if got == 0 {
        return false;
    }
    if got < 5 {
        print::bad();
        return false;
    }
    let long = wire::payload(head);
    if long > 262144 {
        let more = skip(long, space);
        print::bad();
        return more;
    }
    payload(head[0], long, space)
}

// Requests until the input ends: more turns than any input has.
fn requests(space: &mut [u8]) {
    for _ in 0..u64::MAX {
        if !turn(space) {
            return;
        }
    }
}

fn main() {
    let mut space = [0u8; 262144];
    requests(&mut space);
}
