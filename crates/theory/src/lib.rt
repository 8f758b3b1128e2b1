// The theorems about the definitions, in proofs/. There is no code here, and no definition: an edit of a definition is checked against the
// computed statements of its own crate, without them.
#![tactic(auto)]
