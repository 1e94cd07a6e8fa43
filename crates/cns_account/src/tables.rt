// The tables of an account's day.
use cns_tables::Table;

/// The positions of an account.
pub const POSITIONS: Table = Table {
    id: "positions",
    title: "Positions",
    caption: "Long above 0, short below 0 (shares; dollars). Opening position, settling trades, delivered, received, corporate actions \
and buy-ins add up to the closing position. Settling trades are those of the day and those that the close before booked; closes \
short are the closes in a row at which the position was short",
    none: "The sheet has no row of this account.",
    columns: &[
        "Issue",
        "Opening position",
        "Settling trades",
        "Delivered",
        "Received",
        "Corporate actions",
        "Buy-ins",
        "Closing position",
        "Closes short",
        "Current market price",
        "Market value",
        "Mark",
        "Dividend",
    ],
};

/// How the marks of an account come about.
pub const MARKS: Table = Table {
    id: "marks",
    title: "How the mark comes about",
    caption: "Dollars: above 0 the account is owed, below 0 it owes. The price change on the opening position, and each movement at the \
current market price with its money, add up to the mark",
    none: "The sheet has no row of this account.",
    columns: &[
        "Issue",
        "Price before",
        "Current market price",
        "Price change on opening",
        "Settling trades",
        "Delivered",
        "Received",
        "Corporate actions",
        "Buy-ins",
        "Mark",
        "Settling money",
    ],
};

/// The dividends that a close paid to an account or took from it.
pub const DIVIDENDS: Table = Table {
    id: "dividends",
    title: "Dividends",
    caption: "Dividends that this close paid: above 0 the account is paid, below 0 it pays. The position is that of the last close on \
or before the record date; account 0 has the opposite of what all members have (dollars a share; shares; dollars)",
    none: "This close paid no dividend on a position of this account.",
    columns: &[
        "Issue",
        "Record date",
        "Payable date",
        "Rate",
        "Position at the record date",
        "Paid",
    ],
};

/// The shorts of a member.
pub const FAILS: Table = Table {
    id: "fails",
    title: "Fails to deliver, the oldest first",
    caption: "Short positions at the close, for how many closes in a row each is short, and the date of the first of them (shares; \
dollars). The price change is that on the opening positions of the days after that date: below 0 the account paid it in its marks. \
Of an issue that was exchanged it is counted too",
    none: "The account is not short, or it is the corporation's.",
    columns: &[
        "Issue",
        "Closes short",
        "Short since",
        "Opening position",
        "Closing position",
        "Current market price",
        "Market value",
        "Price change while short",
    ],
};

/// What records booked for an account on a day.
pub const BOOKINGS: Table = Table {
    id: "bookings",
    title: "Booked on this day",
    caption: "Each record that booked something for the account on this day, and what the close before booked of trades that were due \
(shares; dollars)",
    none: "Nothing was booked for this account.",
    columns: &["Record", "Issue", "What", "Shares", "Money", "Position"],
};
