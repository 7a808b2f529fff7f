// What holds of cutting in two: definitions in specs/ and laws in proofs/, for any node, test and leaf.
// There is no code: a walk is a function of the crate whose nodes it goes through.
#![tactic(auto)]
