// Laws: the rule on lists of moves (demand 3), each move of either kind, and that the two kinds are one on triangular
// forms. The statements are in specs/, their proofs in proofs/.
#![tactic(auto)]
