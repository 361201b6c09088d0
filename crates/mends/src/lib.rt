// How long is what `mend` hands over. What is mended, and what is proved of it, are definitions and laws: there is no function here.
#![tactic(auto)]

// How many bytes the mended file and the list of mends have.
#[derive(Clone, Copy)]
pub struct Sizes {
    pub file: usize,
    pub list: usize,
}
