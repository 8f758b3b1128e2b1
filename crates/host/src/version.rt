// The version of the engine, and the kit that it is proved with.
// Written by hosts/words from hosts/words.toml and VERSION: change those, and run it.
pub const MAJOR: u32 = 0;

pub const MINOR: u32 = 10;

pub const PATCH: u32 = 0;

pub const KIT: [u8; 32] = *b"rattle-kit-13f\0\0\0\0\0\0\0\0\0\0\0\0\0\0\0\0\0\0";
