// The lists of tests that the checks of an input go by, stated in specs/ and their laws proved in proofs/. There is no code here.
#![tactic(auto)]
