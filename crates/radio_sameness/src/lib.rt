// The sameness rule by the fields of a telegram (document 02, A5), and the proof that it is document 01's rule: in specs/ and proofs/, no code.
#![tactic(auto)]
