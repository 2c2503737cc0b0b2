//! Laws of the histories that tables stand for. Nothing here is done or answered: each function's
//! contract is the law, and a caller has it by the call.

ghost use Rattle.handle_table.specs.Isolation.{PartIsLegal, PartSaysTheSame, PartAnswersTheSame, AreTwoWorldsAlike};
ghost use Rattle.handle_table.specs.Lasting.{FreedStays, ObjectStays, OwnStays, SetsNeverFall, VersionsStay, NewestVersion};

/// Threads that share handles with themselves alone have a part of the history that is legal
/// without the others, says of them what the whole says, and answers their calls as the whole does.
pub fn isolation()
    ensures legal { PartIsLegal }
    ensures says { PartSaysTheSame }
    ensures answers { PartAnswersTheSame }
{}

/// Two histories in which some threads ask the same, with SetGlobals and Installs in the same order,
/// and share handles with themselves alone, reply the same to them, whatever the others do.
pub fn two_worlds()
    ensures { AreTwoWorldsAlike }
{}

/// What later calls never change: that a freed handle is no longer live, an object other than by a
/// New that has it as base, what another thread took up, and the versions of the global locale.
pub fn what_lasts()
    ensures freed_stays { FreedStays }
    ensures object_stays { ObjectStays }
    ensures own_stays { OwnStays }
    ensures sets_never_fall { SetsNeverFall }
    ensures versions_stay { VersionsStay }
    ensures newest_version { NewestVersion }
{}
