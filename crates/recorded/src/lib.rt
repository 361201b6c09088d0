// No code: the board's log, the schedule that it records, and what is proved of them. See specs/ and proofs/.

#![tactic(auto)]
