//! The numbers that bound a regulated path.

/// The last slot; the first is 0.
pub const LAST: u32 = 16_777_215;
/// The highest party; parties are numbered from 0.
pub const LAST_PARTY: u8 = 15;
/// How many parties there are.
pub const PARTIES: usize = 16;
/// The most hops that a path has.
pub const HOPS: usize = 8;
/// The longest link, in slots.
pub const LINK_MAX: u8 = 63;
/// The greatest number that a plan may write as a spacing or a bound.
pub const TERM_MAX: u16 = 65_535;
/// The longest text, in bytes.
pub const TEXT_MAX: usize = 32_768;
