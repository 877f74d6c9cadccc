// Computed cases only: see proofs/.
#![tactic(auto)]
