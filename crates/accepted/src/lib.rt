// The cases of files that are accepted, field by field, as computed statements about the definitions of `model`, in proofs/. There is no code
// here, and nothing depends on this crate: no edit pays for what takes long to compute.
#![tactic(auto)]
