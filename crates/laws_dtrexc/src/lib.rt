// Laws: a move's exchanges are those of LAPACK's dtrexc. The claims are in specs/, their proofs in proofs/.
#![tactic(auto)]
