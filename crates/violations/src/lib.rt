#![tactic(auto)]

// What demands 2 and 3 promise, as tests on concrete lists of calls, and the lists on which edited definitions and statements break
// them (tests/violations). No code: see specs/ and proofs/.
