// The limits of a catalogue, each number once.

// Modules.
pub const MODULES: u16 = 32;
// Versions of a module.
pub const OF_MODULE: u16 = 16;
// Needs of a version.
pub const OF_VERSION: u16 = 16;
// Versions in all.
pub const VERSIONS: u16 = 512;
// Needs in all.
pub const NEEDS: u16 = 1024;
// Bytes of a text.
pub const BYTES: usize = 32768;
