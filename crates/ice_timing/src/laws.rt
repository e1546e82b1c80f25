//! Laws of paths. The functions do nothing: their contracts are the laws.
ghost use Rattle.ice_timing.specs.Paths.{CertificatesBoundPaths};

/// Numbers that never fall short along a dependence bound every path.
pub fn certificates_bound_paths()
    ensures { CertificatesBoundPaths }
{}
