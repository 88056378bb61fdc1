//! What is true of certificates, as contracts of functions that do nothing.

ghost use Rattle.type_cert.specs.Laws.{CertificatesAreDerivations, HeldLabellingTypes, HoldsOneLabelling};
ghost use Rattle.type_cert.specs.Laws.{DerivedTextsAreCertificates, CertificatesHaveNoWrongLine, HasOneFirstWrong};

/// A program has a certificate exactly where some labelling types it.
pub fn certificates_are_derivations()
    ensures { CertificatesAreDerivations }
{}

/// The labelling that a certificate holds types the program, also where it is not the least one.
pub fn held_labelling_types()
    ensures { HeldLabellingTypes }
{}

/// A certificate holds one labelling.
pub fn holds_one_labelling()
    ensures { HoldsOneLabelling }
{}

/// No line of a certificate is wrong: a certificate is never refused.
pub fn certificates_have_no_wrong_line()
    ensures { CertificatesHaveNoWrongLine }
{}

/// Bytes have one first wrong line at most.
pub fn one_first_wrong()
    ensures { HasOneFirstWrong }
{}

/// What `certificate` writes of a labelling that types the program is a certificate, and holds that labelling.
pub fn derived_texts_are_certificates()
    ensures { DerivedTextsAreCertificates }
{}
