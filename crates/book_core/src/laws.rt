//! What holds of every legal history, and of the tests by which a peer's delta is judged, over the definitions alone.
ghost use Rattle.book_core.specs.Laws.{RightsNeverNegative, EachReplyIsKept, NumbersAreKeptOnce, RefundsAreWithinSales, HistoryIsWithinLimit, RowTestIsTheOrder, SitesTestIsTheRange};
ghost use Rattle.book_core.specs.Returned.{SalesAreReturnedWithinTheirSeats};
ghost use Rattle.book_core.specs.WholeRefunds.{LegalWithoutPartsIsWhole, SalesAreRefundedWholeOnce};

/// A site whose history is legal never sold a seat that it had no right to sell (SRDS 2015), whatever deltas it
/// joined, and never took more back than it sold: of no sale more than its seats, in however many parts.
pub fn legal_histories_never_oversell()
    ensures rights { RightsNeverNegative }
    ensures refunds { RefundsAreWithinSales }
    ensures sales { SalesAreReturnedWithinTheirSeats }
{}

/// Each request number of a legal history has one entry, which is what is kept under it; and the history is as long as
/// its limit at most.
pub fn legal_histories_keep_numbers_once()
    ensures kept { EachReplyIsKept }
    ensures once { NumbersAreKeptOnce }
    ensures within_limit { HistoryIsWithinLimit }
{}

/// Over a history whose refunds name no part of their sales a refund that names none either, of a sale of one seat at
/// least, decides as if there were no parts: a sale is given back with all of its seats, and once.
pub fn histories_without_parts_refund_whole_sales()
    ensures { SalesAreRefundedWholeOnce }
{}

/// Such a history, where each sale that was done is of one seat at least, is legal exactly where it was before refunds
/// could name parts: where each refund gives back all seats of its sale, once, and names no part.
pub fn histories_without_parts_are_legal_whole()
    ensures { LegalWithoutPartsIsWhole }
{}

/// The tests of a peer's delta are the order on the own row and the range of the sites, both ways.
pub fn tests_are_the_order()
    ensures own_row { RowTestIsTheOrder }
    ensures sites { SitesTestIsTheRange }
{}
