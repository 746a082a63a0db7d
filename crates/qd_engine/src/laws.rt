//! Laws of the program's words and of its answers: functions with empty bodies, whose clauses are theorems.

ghost use Rattle.qd_engine.specs.WordLaws.{DashIsNoCommand, UnplainIsNoCommand};
ghost use Rattle.qd_engine.specs.CertificateLaws.{CertificateIsAcceptable};
ghost use Rattle.qd_engine.specs.LiftedLaws.{LiftedCauses, LiftedSizes};
ghost use Rattle.qd_engine.specs.NamedLaws.{MadeIsSaid, SampleIsSaid};

/// Words of which one begins with `-` are no command of the program, nor are words of which one is empty, nor none.
pub fn word_laws()
    ensures dash { DashIsNoCommand }
    ensures unplain { UnplainIsNoCommand }
{}

/// The certificate that the program writes for an accepted document is accepted by `verify`, where it is short enough to be read.
pub fn certificate_laws()
    ensures acceptable { CertificateIsAcceptable }
{}

/// Of the commands whose rows are lifted from a modulus: no test of theirs, and nothing late, refuses for another conductor, another
/// shape, another number of rows or an overflow; and where the input is accepted, no coefficient of a value of the rows is over 7 in
/// magnitude, since a value is a sum of d roots of unity with d d at most 60 (textbook).
pub fn lifted_laws()
    ensures causes { LiftedCauses }
    ensures sizes { LiftedSizes }
{}

/// The document of the cocycle that a maker names, where its numbers are not refused, and that of a sample has this cocycle, so that no
/// test of the laws of a group or of a cocycle refuses it.
pub fn named_laws()
    ensures made { MadeIsSaid }
    ensures sample { SampleIsSaid }
{}
