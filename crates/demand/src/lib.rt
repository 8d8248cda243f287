// No code: the user's three demands as theorems over the promises of the public functions. The statements stand in specs/, a file for each demand,
// and nothing else; the proofs stand in proofs/.
#![tactic(auto)]
