// No code: the statements of the three demands, the P examples and what stands beside them, in specs/,
// a file for each; their proofs, in proofs/.
#![tactic(auto)]
