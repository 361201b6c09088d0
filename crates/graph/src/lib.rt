// The graph of a file, and the refusal that every entry of the planner shares. The reader that makes a graph is `reader`.

#![tactic(auto)]

ghost use Rattle.std.specs.Prelude.{◌≡◌};
ghost use Rattle.graph.specs.Answer.{at_0};

// What an entry says no with: document 01's number, and the place of the record, vertex or instant at fault. The numbers are the users' own
// and C's, and theorems count with them: so they are numbers here, and no enum.
#[derive(Clone, Copy, PartialEq, Eq, Debug)]
pub struct Refusal {
    pub number: u32,
    pub place: u32,
}

impl Refusal {
    // A number that is said of no record, vertex or instant has place 0.
    pub fn whole(number: u32) -> Refusal
        ensures { result ≡ at_0 number }
    {
        Refusal { number, place: 0 }
    }
}

// Counts and lists of a graph; unused places are zero. An edge is from * 256 + to.
#[repr(C)]
#[derive(Clone, Copy)]
pub struct Graph {
    pub kinds: usize,
    pub n: usize,
    pub edges: usize,
    pub cores: [u8; 10],
    pub kind: [u8; 128],
    pub wcet: [u32; 128],
    pub edge: [u16; 1024],
}
