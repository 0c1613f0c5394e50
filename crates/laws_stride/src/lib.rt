// Laws: what a stride beside n changes, and what it does not. The claims are in specs/, their proofs in proofs/.
#![tactic(auto)]
