// Unit tests of what no clause says: what a caller is told, and what comes out, where a read or a write fails in mid-stream or moves little
// at a time; generic functions and traits' functions at types of their own, and types that no program makes, with values from outside. There
// is nothing here but tests.
#![tactic(auto)]

#[cfg(test)]
mod answering;
#[cfg(test)]
mod days;
#[cfg(test)]
mod faults;
#[cfg(test)]
mod printing;
#[cfg(test)]
mod reading;
#[cfg(test)]
mod saved;
#[cfg(test)]
mod types;
