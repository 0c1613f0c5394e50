// Laws: a list of moves at once is the single calls made in turn, the form is checked once, the rule on lists covers it, and what holds of every call holds of it.
#![tactic(auto)]
