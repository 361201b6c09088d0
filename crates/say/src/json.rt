// Numbers of a JSON object (docs/JSON.md), and a refusal as one.
use crate::out;
use graph::Refusal;

// What stands before a number, and the number.
pub fn member(before: &[u8], n: u64) -> bool {
    out::text(before) & out::number(n)
}

pub fn refused(r: Refusal) -> bool {
    let number = member(b"{\"refused\": {\"number\": ", r.number as u64);
    number & member(b", \"place\": ", r.place as u64) & out::text(b"}}\n")
}
