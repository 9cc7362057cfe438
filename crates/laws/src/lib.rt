#![tactic(auto)]

// Laws of lists, numbers and lexicographic order. No code: see specs/ and proofs/.
