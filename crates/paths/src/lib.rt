// The largest sums along paths, and the least path that attains the largest: over an accepted graph and any weights.
#![tactic(auto)]

pub mod ahead; // ahead.rt: the largest sums that lie ahead of each vertex
pub mod trace; // trace.rt: the path, step by step
