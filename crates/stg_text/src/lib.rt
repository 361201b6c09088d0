// No code: what a Standard Task Graph text is, what it says and how it is written, and what is proved of that. See specs/ and proofs/.

#![tactic(auto)]
