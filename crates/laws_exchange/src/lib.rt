// Laws: the exchange worked in a loop is the exchange, and how many swaps it counts. The claims are in specs/, their
// proofs in proofs/.
#![tactic(auto)]
