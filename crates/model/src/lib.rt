// The case file (METHOD, The case file): its definitions in specs/, what is computed of them in proofs/, and here the types of a case, of
// what a valuation gives and of the host's window. There is no function here: an edit of one of these definitions is put to these
// statements alone.
#![tactic(auto)]

pub mod case;
pub mod figures;
pub mod window;
