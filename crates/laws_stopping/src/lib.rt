// Laws: the move that stops: when it does, that it is dtrexc's own run, and what it meets. The claims are in specs/,
// their proofs in proofs/.
#![tactic(auto)]
