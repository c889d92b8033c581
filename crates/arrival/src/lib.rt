// What the simulator promises of its runs: theorems alone, in proofs/, over the statements in specs/.

#![tactic(auto)]
