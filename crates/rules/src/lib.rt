// What a settings word and a tick do to an axis, of which the code of `axis` and the theorems of `demands` speak; and the laws of one word and one
// tick, in proofs/.

#![tactic(auto)]
