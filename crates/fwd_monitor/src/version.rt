//! The program's version. It stands here alone: what installs the program reads it from this file.

/// The version.
pub const VERSION: &str = "0.2.0";
