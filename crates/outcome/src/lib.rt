// No code: what it is for a contract to leave one outcome. See specs/.

#![tactic(auto)]
