// The refusals of files at each limit, on both sides, and in each place of the order of checks, as computed statements about the definitions
// of `model`, in proofs/. There is no code here, and nothing depends on this crate: no edit pays for what takes long to compute.
#![tactic(auto)]
