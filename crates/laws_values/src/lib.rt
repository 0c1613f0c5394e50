// Laws: the two readings of a form's values: what each gives at every row, where both give the same bits, and what
// standardising leaves. The claims are in specs/, their proofs in proofs/.
#![tactic(auto)]
