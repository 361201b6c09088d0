// The letters R and W of the probe: a file, read; lists, written. Each takes a request's payload and prints the line that answers it.
#![tactic(auto)]

mod reads;
mod writes;

pub use reads::read_request;
pub use writes::write_request;
