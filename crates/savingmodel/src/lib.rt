// A case written back in its shortest form: its definitions in specs/ and what is computed of them in proofs/.
// There is no function here: an edit of one of these definitions is checked against these statements alone.
#![tactic(auto)]
