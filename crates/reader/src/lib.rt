// The reader of case files: what a host calls. A file is read once, from the front, by a cursor over the caller's bytes.
#![tactic(auto)]

pub mod file;
