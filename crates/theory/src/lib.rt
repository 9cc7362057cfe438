#![tactic(auto)]

// The premises and statements of demands 1 to 3, and their proofs. No code: see specs/ and proofs/.
