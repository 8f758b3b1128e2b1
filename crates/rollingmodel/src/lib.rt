// A rolling window of days (METHOD, A rolling window of days): its definitions in specs/, what is computed of them in proofs/, its types
// here. There is no function here: an edit of one of these definitions is checked against these statements alone.
#![tactic(auto)]

// A rolling window of trading days, as hosts keep it: a plain struct, by value, as C lays it out.
// The days are in a ring of 70 slots of 60 rates: day i, from the oldest, in slot (start + i) % 70.
// Slots that are not held are free: what lies there makes no difference. `sums` has, of each term, the sum of the days held.
#[repr(C)]
#[derive(Clone, Copy)]
pub struct RollingWindow {
    pub count: u64,
    pub start: u64,
    pub rates: [i16; 4200],
    pub sums: [i64; 60],
}

// The zero rates of one trading day, terms 1 to 60, in rate steps.
#[repr(C)]
#[derive(Clone, Copy)]
pub struct Day {
    pub rates: [i32; 60],
}

// What a change of a window gives: 0 and the window after it, or the number of the refusal and the window as it was.
#[repr(C)]
#[derive(Clone, Copy)]
pub struct ChangedWindow {
    pub refusal: u8,
    pub window: RollingWindow,
}
