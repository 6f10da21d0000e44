//! What `--version` tells. It is kept by hand, so that two builds of the same sources are the same bytes.

/// The program's name and version, and the kit that proves and builds it. `dist/SOURCES` has the checksum of the sources.
pub(crate) const VERSION: &str = "xsk 1.0, rattle-kit-13f\n";
