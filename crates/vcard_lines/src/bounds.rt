//! The upper bound of octet counts.

/// The greatest count of octets. Greater counts saturate here.
pub const COUNT_MAX: usize = usize::MAX;
