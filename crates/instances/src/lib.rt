#![tactic(auto)]

// Concrete lists of calls that meet the premises of demands 2 and 3. No code: see proofs/.
