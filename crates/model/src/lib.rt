// The coded Merkle tree as definitions and laws, in `specs/` and `proofs/`: its layers, the writer,
// samples, fault proofs and repair. There is no code here.
#![tactic(auto)]
