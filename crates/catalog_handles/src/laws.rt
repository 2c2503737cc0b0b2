//! Laws of the histories of catalog handles. Nothing here is done or answered: each function's
//! contract is the law, and a caller has it by the call.

ghost use Rattle.catalog_handles.specs.Isolation.{PartIsLegal, PartAnswersTheSame};
ghost use Rattle.catalog_handles.specs.Lasting.{ClosedStays, BookStays};

/// Threads that share catalog handles with themselves alone have entries that are a legal history
/// without the others, and that answers their calls as the whole does.
pub fn isolation()
    ensures legal { PartIsLegal }
    ensures answers { PartAnswersTheSame }
{}

/// What later calls never change: that a closed handle is refused as stale, and which catalog a
/// handle was opened with.
pub fn what_lasts()
    ensures closed_stays { ClosedStays }
    ensures book_stays { BookStays }
{}
