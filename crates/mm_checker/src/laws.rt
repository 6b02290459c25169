//! The law of certificates, over their definitions alone.
ghost use Rattle.mm_checker.specs.Laws.{PassingCertificatesAreRight};

/// A certificate that passes gives the right answer, whoever made it.
pub fn passing_certificates_are_right()
    ensures { PassingCertificatesAreRight }
{}
