//! Laws of devices that apply the pages of reports.
//!
//! A device without a token is consistent. One with a token is consistent if the token is of its
//! book, and its copy agrees with the book's log at the token's mark: `at` is at most `base`, and
//! `base` at most the number of events; a member without an event above `at` is in the copy exactly
//! as it is now; and a removed member without an event above `base` isn't in the copy
//! (`specs/DeviceConsistency.antt`).
//!
//! A member is due at a mark if it has an event above `at`, and is live or has one above `base`
//! (`specs/Reports.antt`). A device is up to date if its copy equals the live cards of its book,
//! with their versions.
ghost use Rattle.book_laws.specs.DeviceLaws.{EmptyCopyAgrees, DevicesStartConsistent};
ghost use Rattle.book_laws.specs.DeviceLaws.{InitialReportsListLiveMembers, CopiesStayConsistent};
ghost use Rattle.book_laws.specs.DeviceLaws.{PartialPagesKeepCopiesConsistent};
ghost use Rattle.book_laws.specs.DeviceLaws.{WholePagesKeepCopiesConsistent};
ghost use Rattle.book_laws.specs.DeviceLaws.{LastPagesCompleteCopies, LastPagesCompleteDevices};
ghost use Rattle.book_laws.specs.DeviceLaws.{CopiesWithNoneDueAreComplete};
ghost use Rattle.book_laws.specs.DeviceLaws.{ConsistentTokensAreAccepted};
ghost use Rattle.book_laws.specs.DeviceLaws.{ConsistentTokensExpireBelowHorizon};
ghost use Rattle.book_laws.specs.DeviceLaws.{EventsKeepDevicesConsistent};
ghost use Rattle.book_laws.specs.DeviceLaws.{NewBooksKeepDevicesConsistent};
ghost use Rattle.book_laws.specs.DeviceLaws.{PartialPagesKeepDevicesConsistent};
ghost use Rattle.book_laws.specs.DeviceLaws.{WholePagesKeepDevicesConsistent, DueMembersAreInOrder};
ghost use Rattle.book_laws.specs.DeviceLaws.{EntriesAreFirstDue, PageSizesAreExact};
ghost use Rattle.book_laws.specs.RunLaws.{CallsKeepDevicesConsistent};
ghost use Rattle.book_laws.specs.PagingLaws.{EventsAddAtMostOneDue, TruncatedPagesLeaveRest};
ghost use Rattle.book_laws.specs.PagingLaws.{TruncatedPagesLeaveFewer, LastPagesLeaveNoneDue};
ghost use Rattle.book_laws.specs.PagingLaws.{TruncatedPagesAreBounded, QuietBooksSyncFully};
ghost use Rattle.book_laws.specs.PagingLaws.{QuietDevicesCatchUp};

/// The mark of an initial report (`specs/DeviceLaws.antt`).
/// - `copies`: an empty copy agrees with the log at this mark.
/// - `due`: exactly the live members are due at this mark.
pub fn initial_reports_start_consistent()
    ensures copies { EmptyCopyAgrees }
    ensures due { InitialReportsListLiveMembers }
{}

/// A device without a token is consistent (`specs/DeviceLaws.antt`).
pub fn devices_start_consistent()
    ensures { DevicesStartConsistent }
{}

/// A copy that agrees with a log at a mark still does after any event, possible or not
/// (`specs/DeviceLaws.antt`).
pub fn copies_stay_consistent()
    ensures { CopiesStayConsistent }
{}

/// A copy that agrees at a mark still does after any number of the first entries of a report from
/// that mark (`specs/DeviceLaws.antt`).
pub fn partial_pages_keep_copies_consistent()
    ensures { PartialPagesKeepCopiesConsistent }
{}

/// A copy that agrees at a mark agrees at the report's mark after all its entries, where the page
/// size is above 0 (`specs/DeviceLaws.antt`).
pub fn whole_pages_keep_copies_consistent()
    ensures { WholePagesKeepCopiesConsistent }
{}

/// Complete copies (`specs/DeviceLaws.antt`).
/// - `copies`: after a report that isn't truncated, a copy that agreed at its mark equals the live
///   cards, with their versions.
/// - `devices`: a consistent device is up to date after a page of its book that isn't truncated.
/// - `due`: a copy that agrees at a mark equals the live cards where no member is due.
pub fn last_pages_complete_copies()
    ensures copies { LastPagesCompleteCopies }
    ensures devices { LastPagesCompleteDevices }
    ensures due { CopiesWithNoneDueAreComplete }
{}

/// The test of a consistent device's token by its book (`specs/DeviceLaws.antt`).
/// - `known`: the token is accepted with its mark where its base is not below the horizon.
/// - `old`: it is refused as `TooOld` where its base is below the horizon.
pub fn consistent_tokens_are_accepted()
    ensures known { ConsistentTokensAreAccepted }
    ensures old { ConsistentTokensExpireBelowHorizon }
{}

/// A consistent device stays consistent (`specs/DeviceLaws.antt`).
/// - `events`: after an event in any book, possible or not.
/// - `books`: after a book is created under a free name.
/// - `parts`: after a page of its book of which it applied nothing or only the first entries.
/// - `pages`: after a whole page of its book, where `page_max` is above 0.
pub fn devices_stay_consistent_among_books()
    ensures events { EventsKeepDevicesConsistent }
    ensures books { NewBooksKeepDevicesConsistent }
    ensures parts { PartialPagesKeepDevicesConsistent }
    ensures pages { WholePagesKeepDevicesConsistent }
{}

/// The entries of a report of size k (`specs/DeviceLaws.antt`).
/// - `order`: the numbers of the due members' last events rise strictly.
/// - `entries`: the entries are those of the first k due members, each as it is now.
/// - `size`: their number is the smaller of k and the number of due members.
pub fn reports_list_the_first_due()
    ensures order { DueMembersAreInOrder }
    ensures entries { EntriesAreFirstDue }
    ensures size { PageSizesAreExact }
{}

/// The due members after an event and after a page of size k (`specs/PagingLaws.antt`).
/// - `event`: an event makes at most one more member due.
/// - `rest`: after a truncated page, the members due are those after the first k, where k is above
///   0.
/// - `fewer`: they are then exactly k fewer.
/// - `none`: after a page that isn't truncated no member is due.
pub fn due_members_are_counted()
    ensures event { EventsAddAtMostOneDue }
    ensures rest { TruncatedPagesLeaveRest }
    ensures fewer { TruncatedPagesLeaveFewer }
    ensures none { LastPagesLeaveNoneDue }
{}

/// Where at least one page is truncated and the page size k is above 0: the number of truncated
/// pages, times k, is less than the members due at the first request plus the events added after
/// it, up to the last truncated page (`specs/PagingLaws.antt`).
pub fn truncated_pages_are_bounded()
    ensures { TruncatedPagesAreBounded }
{}

/// Without events in between, where k is above 0 and at most n * k members are due
/// (`specs/PagingLaws.antt`).
/// - `places`: after n pages of size k no member is due.
/// - `devices`: the copy of a consistent device then equals the live cards, where n is above 0.
pub fn quiet_books_sync_fully()
    ensures places { QuietBooksSyncFully }
    ensures devices { QuietDevicesCatchUp }
{}

/// A consistent device stays consistent after any list of the thirteen calls of a store (`Call`),
/// on its own book and on others, whatever the limits. A refused call changes nothing
/// (`specs/RunLaws.antt`).
pub fn devices_stay_consistent_over_calls()
    ensures { CallsKeepDevicesConsistent }
{}
