// The buyer's demands, 01's starred cases and the change requests as statements, in `specs/`, with their proofs in `proofs/`. There is no code here.
#![tactic(auto)]
