// The first steps of exp, in specs/, and a computed test of them for each number of halvings, in proofs/: apart from exp
// itself, since it is long. There is no code here.
#![tactic(auto)]
