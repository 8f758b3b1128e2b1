// The working, from the curve to the listing (METHOD, The exact working; METHOD, The rounded working): its definitions in specs/, what is
// computed of them in proofs/. There is no code here: an edit of one of these definitions is checked against these statements alone.
#![tactic(auto)]
