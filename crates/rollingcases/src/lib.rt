// A rolling window of days: what takes long to compute of its definitions, in proofs/. There is no code here, and nothing depends on this
// crate: no edit pays for it.
#![tactic(auto)]
