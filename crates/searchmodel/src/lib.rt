// The search for a zero rate by halving (METHOD, The search for a zero rate): its definitions in specs/, what is computed of them in
// proofs/, its type here. There is no function here: an edit of one of these definitions is checked against these statements alone.
#![tactic(auto)]

// Step i, from 0 to 22,000, is the rate i - 2,000.
// The steps that no test has ruled out: from `first` to `last`, both included.
#[derive(Clone, Copy)]
pub struct StepsLeft {
    pub first: u64,
    pub last: u64,
}
