// Laws for proofs by hand of functions over a lent struct: all in proofs/. There is no code here.
#![tactic(auto)]
