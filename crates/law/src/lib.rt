//! The law for runs of calls on a sheet. Each function states what is proved.
#![tactic(auto)]

ghost use Rattle.law.specs.Law.{LawForRuns};
ghost use Rattle.law.specs.Facts.{AcceptedGrip, Diagonal, Pivots, PullsRightly, SpareExactly};
ghost use Rattle.law.specs.Plenty.{FitsAlways, SeriesMade, SmallMade};
ghost use Rattle.law.specs.Run.{RanFromOpening};
ghost use Rattle.law.specs.Standing.{AfterCall, AfterOpening};

/// Every history that a series of calls makes, from an accepted opening on, is lawful. The sheet's values are
/// the kept values and meet every bound relation. A call is refused as not open exactly when it is not open.
/// An open pull is refused as impossible exactly when no placing meets all, and where it is not, such a placing
/// is given. An accepted pull proposes the one nearest to the wishes.
pub fn law_for_runs_stands()
    ensures law { LawForRuns }
    ensures ran { RanFromOpening }
{}

/// The same call by call, as one fact on the sheet in use after a history: every entry is lawful, and what
/// the history tells is what the sheet and its lists hold. It holds after an opening, and again after each call.
pub fn each_call_is_lawful()
    ensures opening { AfterOpening }
    ensures call { AfterCall }
{}

/// The law is not empty: every series of calls makes a history, and a small one has an accepted pull, a keep
/// and a call that is not open.
pub fn histories_are_made()
    ensures series { SeriesMade }
    ensures small { SmallMade }
{}

/// Where the lists are long enough no call is refused with 1.
pub fn long_lists_fit_always()
    ensures { FitsAlways }
{}

/// No pivot of a grip is negative, and a row without one is 0 in its first half, when it is met and at the end.
pub fn pivots_of_grips_stand()
    ensures pivots { Pivots }
    ensures diagonal { Diagonal }
{}

/// The workings of an accepted grip are the table after all steps, within the limit; the spare relations are
/// those that earlier ones imply for the loose.
pub fn accepted_grips_stand()
    ensures workings { AcceptedGrip }
    ensures spare { SpareExactly }
{}

/// A pull with the workings of a grip on its sheet is refused as impossible exactly when no placing meets all;
/// where it is not, such a placing is given, and an accepted pull proposes the nearest one.
pub fn pulls_of_grips_stand()
    ensures { PullsRightly }
{}
