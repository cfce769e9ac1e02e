//! Numbers of Tink's keyset format (tink.proto), and the prefix of temporary file names.

/// The status of a key that may be used (KeyStatusType).
pub const ENABLED: u32 = 1;
/// The status of a key that is kept and not used.
pub const DISABLED: u32 = 2;
/// The status of a key whose material is gone.
pub const DESTROYED: u32 = 3;

/// The output prefix type of five bytes that start with 0x01 (OutputPrefixType).
pub const TINK: u32 = 1;
/// The output prefix type of five bytes that start with 0x00; its MACs are computed over one more
/// byte, 0x00.
pub const LEGACY: u32 = 2;
/// The output prefix type of no bytes.
pub const RAW: u32 = 3;
/// The output prefix type of five bytes that start with 0x00.
pub const CRUNCHY: u32 = 4;

/// The prefix of the temporary name beside a new file. It doesn't depend on the file's own name.
pub const TEMPORARY: &str = ".tinkey-new-";
