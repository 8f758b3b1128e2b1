// A point of the host's window, and a bracket as two doubles that hold the same whole numbers.

// Two doubles, since a bracket counts whole numbers: with a parameter, every clause that says `Bracket` would have to say of what.
#[derive(Clone, Copy)]
pub struct Doubles {
    pub lower: f64,
    pub upper: f64,
}

// A blank point is a kind of its own, as a host is told it: an `Option` of the two others would say the same with one more name.
#[derive(Clone, Copy)]
pub enum Point {
    Factor(f64, f64),
    Money(f64, f64),
    Blank,
}
