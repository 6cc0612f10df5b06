// What the definitions and the proofs of every other crate cite. There is no code here.
