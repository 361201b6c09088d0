// No code: what the words of the paper and of the scope mean, and what is proved of them. See specs/ and proofs/.

#![tactic(auto)]
