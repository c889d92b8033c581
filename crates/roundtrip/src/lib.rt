// Settings and their words, there and back: theorems alone, in proofs/, over the readings in specs/.

#![tactic(auto)]
