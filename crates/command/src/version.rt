// The version of the program.
// Written by hosts/words from hosts/words.toml and VERSION: change those, and run it.
pub const VERSION: &str = "0.10.0";
