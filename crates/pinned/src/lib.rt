// The listings of whole case files and numbers of curves, as computed statements about the definitions of `method`, in proofs/. There is no
// code here, and nothing depends on this crate: no edit pays for what takes long to compute.
#![tactic(auto)]
