// What stands on a page beside its figures: the titles, captions and columns of its tables.
use cns_tables::Table;

/// The tables of a page.
#[derive(Clone, Copy)]
pub struct Captions {
    pub exceptions: Table,
    pub reasons: Table,
    pub accounts: Table,
    pub issues: Table,
    pub fails: Table,
    pub liable: Table,
    pub notices: Table,
    pub due: Table,
    pub projection: Table,
    pub days: Table,
    pub totals: Table,
}

/// Members' fails to deliver.
pub(crate) const FAILS: Table = Table {
    id: "fails",
    title: "Fails to deliver, the oldest first",
    caption: "Members&#39; short positions at the close, and for how many closes in a row each is short (shares)",
    none: "No member is short.",
    columns: &["Issue", "Member", "Closes short", "Opening", "Closing"],
};

/// Members liable for notices.
pub(crate) const LIABLE: Table = Table {
    id: "liable",
    title: "Buy-in retransmittal: liable members",
    caption: "Members liable for notices of this day and of the day before, in the order in which executions are allocated to \
them, with what is left of each liability (shares)",
    none: "No member is liable for a notice of this day or of the day before.",
    columns: &[
        "Issue",
        "Day of the notices",
        "Member",
        "Closes short",
        "Short at that close",
        "Liability left",
    ],
};

/// Notices in force.
pub(crate) const NOTICES: Table = Table {
    id: "notices",
    title: "Notices of intention in force",
    caption: "Notices of intention to buy in that are live after the close. Days are numbered by closes, and the date of a \
coming day is what the close before it will name (shares)",
    none: "No notice of intention to buy in is live.",
    columns: &[
        "Issue",
        "Notice",
        "Member",
        "Quantity",
        "Given on day",
        "Still to be bought in",
        "Last day",
    ],
};

/// Trades that settle after a day.
pub(crate) const PROJECTION: Table = Table {
    id: "projection",
    title: "Projection",
    caption: "Accepted trades that settle after this day, by date: booked by this close into the day that it opens, or pending. \
The positions above are without them (shares; dollars)",
    none: "No accepted trade settles after this day.",
    columns: &[
        "Settles",
        "Reference",
        "Buyer",
        "Seller",
        "Issue",
        "Shares",
        "Money",
        "Booked",
    ],
};

const CAPTIONS: Captions = Captions {
    exceptions: Table {
        id: "exceptions",
        title: "Exceptions",
        caption: "Records of the day that are invalid or refused, as they were given, with the facts that decided; refused questions \
stand last. Where there are more than 200 the first 200 stand here",
        none: "None: each record of the day was a command, and none was refused.",
        columns: &["Record", "As given", "Why", "Facts"],
    },
    reasons: Table {
        id: "reasons",
        title: "Exceptions by reason",
        caption: "How many of the day&#39;s exceptions are of which kind",
        none: "None.",
        columns: &["Why", "Count"],
    },
    accounts: Table {
        id: "accounts",
        title: "CNS Accounting Summary",
        caption: "The sums over all accounts, and then each account&#39;s issues under the sums of its own. Account 0 is the \
corporation&#39;s. Positions are in shares: above 0 the account is owed shares, below 0 it owes them. Prices and amounts are in \
dollars: above 0 the account is owed, below 0 it owes. The price change on the opening position, and each movement of the day at the \
price with its money, add up to the mark",
        none: "The sheet has no row.",
        columns: &[
            "Issue",
            "Opening",
            "Closing",
            "Price before",
            "Price",
            "Settling money",
            "Price change on opening",
            "Settling trades",
            "Delivered",
            "Received",
            "Corporate actions",
            "Buy-ins",
            "Mark",
            "Dividend",
        ],
    },
    issues: Table {
        id: "issues",
        title: "Sums by issue",
        caption: "The sums over all accounts, the corporation&#39;s with them, of each issue that has a row (shares; dollars). All positions \
add up to 0, and so do settling money, marks and dividends",
        none: "The sheet has no row.",
        columns: &[
            "Issue",
            "Long positions",
            "Short positions",
            "All positions",
            "Settling money",
            "Marks",
            "Dividends",
        ],
    },
    fails: FAILS,
    liable: LIABLE,
    notices: NOTICES,
    due: Table {
        id: "due",
        title: "Booked by this close, and due on the next day",
        caption: "Each position that a trade changes which settles after this day (shares): above 0 the account is owed shares, below 0 \
it owes them. The closing position and what this close booked of trades that settle on the next day are what is due then; after all \
stands what will be, with the trades that are pending. Each other position is due as it closed",
        none: "No accepted trade settles after this day: each position is due as it closed.",
        columns: &[
            "Issue",
            "Account",
            "Closing position",
            "Booked by the close",
            "Due on the next day",
            "After all",
        ],
    },
    projection: PROJECTION,
    days: Table {
        id: "days",
        title: "Last 60 days",
        caption: "The days up to this one, the last 60 at most, with their gross mark, the sum of the amounts of all marks \
(dollars), and the count of members&#39; fails",
        none: "No day is closed.",
        columns: &["Date", "Day", "Gross mark", "Fails"],
    },
    totals: Table {
        id: "totals",
        title: "Control totals",
        caption: "Records of standard input; empty lines are no records",
        none: "No record was given.",
        columns: &["Records", "Count", "Exceptions"],
    },
};

/// The tables of a page. What a caller shows of them need not look at their bytes.
pub(crate) fn day_captions() -> Captions {
    CAPTIONS
}
