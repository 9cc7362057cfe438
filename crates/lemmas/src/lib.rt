#![tactic(auto)]

// What follows from the definitions of model for one tick, for theory and code alike. No code: see proofs/.
