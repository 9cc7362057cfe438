#![tactic(auto)]

// Document 01 as definitions. No code: see specs/ and proofs/.
