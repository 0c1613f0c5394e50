// Laws: the shape of a form: what a call gives back can be sent to any call again, with a factor or without. The claims
// are in specs/, their proofs in proofs/.
#![tactic(auto)]
