// A case as a host hands it in.
use model::case::CaseFields;

// The fields that are no lists, and the rates, the pension flows and the bond flows as lists: the rates in the units of their form, flows
// in whole euros.
#[derive(Clone, Copy)]
pub struct GivenCase<'a> {
    pub fields: &'a CaseFields,
    pub rates: &'a [i32],
    pub pension: &'a [u64],
    pub bonds: &'a [u64],
}
