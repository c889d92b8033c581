// The owner's demands, said of whole lists of settings words and ticks: theorems alone, in proofs/, over the readings in specs/.

#![tactic(auto)]
