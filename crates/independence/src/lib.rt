// Gear, offset and stops reach no tick's answer but that to a position command: theorems alone, in proofs/, over the statements in specs/.

#![tactic(auto)]
