// The marked examples M1 to M13 in one list: definitions and their proof, no code.
#![tactic(auto)]
