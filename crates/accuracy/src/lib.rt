// How near exp is to the power series. There is no code here.
#![tactic(auto)]
