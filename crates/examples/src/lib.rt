// Document 01's eleven examples, two jobs carried through demand 3, and three fits that solve the published normal equations, stated
// in specs/ and proved in proofs/ by computing: apart from the demands, so that an edit of those does not compute them. No code.
#![tactic(auto)]
