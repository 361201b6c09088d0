#![tactic(auto)]

// Reads a graph file from standard input and prints its sheet. No file has more than 9,296 bytes: of a longer input only that it is longer matters.
fn main() {
    let mut buf = [0u8; 9304];
    let n = io::read_full(0, &mut buf);
    let _ = show::sheet(&buf[..n]);
}
