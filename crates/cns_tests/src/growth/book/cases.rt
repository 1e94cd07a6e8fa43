// The commands, each with a book in which it is given.
const MEMBERS: &str = "MEMBER,1\nMEMBER,2\nMEMBER,3\nISSUE,037833100,19500\nISSUE,17275R102,4650\n";

// Member 1 buys 110 shares, 60 from member 2 and 50 from member 3.
const TRADED: &str =
    "TRADE,1,1,2,037833100,60,1170000,2024-06-03\nTRADE,2,1,3,037833100,50,975000,2024-06-03\n";

// Member 1 is to get 60 shares of member 2 and to give 10 to member 3, two days later.
const AHEAD: &str =
    "TRADE,21,1,2,037833100,60,1170000,2024-06-05\nTRADE,22,3,1,037833100,10,195000,2024-06-05\n";

const DELIVERED: &str = "DELIVER,2,037833100,60\n";

const NOTICED: &str = "NOTICE,1,037833100,80\n";

const TWO_CLOSES: &str = "CLOSE,2024-06-04\nCLOSE,2024-06-05\n";

// The record date is the second close's, which comes before a notice is given.
const DUE: &str = "DIVIDEND,037833100,2024-06-04,2024-06-05,405000\nCLOSE,2024-06-04\n\
CLOSE,2024-06-05\nNOTICE,1,037833100,20\n";

// Member 1 is long as many shares as a member may be.
const FULL: &str = "TRADE,3,1,2,17275R102,1000000000,0,2024-06-03\n\
TRADE,4,1,2,17275R102,1000000000,0,2024-06-03\nTRADE,5,1,2,17275R102,1000000000,0,2024-06-03\n\
TRADE,6,1,2,17275R102,1000000000,0,2024-06-03\nTRADE,7,1,2,17275R102,1000000000,0,2024-06-03\n\
TRADE,8,1,2,17275R102,1000000000,0,2024-06-03\nTRADE,9,1,2,17275R102,1000000000,0,2024-06-03\n\
TRADE,10,1,2,17275R102,1000000000,0,2024-06-03\nTRADE,11,1,2,17275R102,1000000000,0,2024-06-03\n\
TRADE,12,1,2,17275R102,1000000000,0,2024-06-03\n";

// A command, and the records of a book in which it is given.
#[derive(Clone, Copy)]
pub(super) struct Case<'c> {
    pub(super) before: &'c [&'c str],
    pub(super) record: &'c str,
    // Whether a rule refuses it there.
    pub(super) is_refused: bool,
    // It makes at least so many growths beside that of the history; where this is 0, none.
    pub(super) growths: u64,
    // Blocks that a refused growth may leave behind: rows of zeros, and room for what comes next.
    pub(super) left: u64,
}

// The records of a book, a command that is accepted there, its growths, and the blocks that a refused one may leave.
pub(super) const ACCEPTED: [(&[&str], &str, u64, u64); 17] = [
    (&[MEMBERS], "MEMBER,9999\n", 1, 0),
    (&["MEMBER,1\n"], "ISSUE,037833100,19500\n", 1, 0),
    // Neither member has a row, and no trade used a reference near this one.
    (
        &[MEMBERS],
        "TRADE,1000,1,2,037833100,60,1170000,2024-06-03\n",
        3,
        2,
    ),
    // It is to wait, and none does yet. Room for it may stay: on the list, and in the sums of both parties.
    (
        &[MEMBERS],
        "TRADE,1000,1,2,037833100,60,1170000,2024-06-05\n",
        3,
        2,
    ),
    (&[MEMBERS], "PRICE,037833100,19600\n", 0, 0),
    (&[MEMBERS, TRADED], "DELIVER,2,037833100,60\n", 1, 0),
    (
        &[MEMBERS, TRADED, DELIVERED, NOTICED],
        "RECEIVE,1,037833100,40\n",
        0,
        0,
    ),
    (
        &[MEMBERS, TRADED],
        "DIVIDEND,037833100,2024-06-04,2024-06-06,405000\n",
        1,
        0,
    ),
    (&[MEMBERS, TRADED], "SPLIT,037833100,3,2,3101\n", 3, 1),
    (
        &[MEMBERS, TRADED],
        "EXCHANGE,037833100,17275R102,1,6,18300,50\n",
        6,
        5,
    ),
    (&[MEMBERS, TRADED], "NOTICE,1,037833100,80\n", 2, 1),
    (&[MEMBERS, TRADED, NOTICED], "WITHDRAW,1\n", 0, 0),
    // Two members are filled.
    (
        &[MEMBERS, TRADED, NOTICED, TWO_CLOSES],
        "EXECUTE,1,80,160001\n",
        1,
        0,
    ),
    // A dividend is due, a notice is called, and two members are short.
    (&[MEMBERS, TRADED, DUE], "CLOSE,2024-06-06\n", 8, 1),
    // Two trades are due, at three keys.
    (&[MEMBERS, TRADED, AHEAD], "CLOSE,2024-06-05\n", 8, 1),
    (&[MEMBERS, TRADED], "POSITION,1,037833100\n", 0, 0),
    (
        &[MEMBERS, TRADED, TWO_CLOSES],
        "STATEMENT,1,2024-06-03\n",
        0,
        0,
    ),
];

// A dividend of an issue that nobody holds is due at a close, or later.
pub(super) const UNPAID_DUE: Case<'static> = Case {
    before: &[
        MEMBERS,
        "DIVIDEND,037833100,2024-06-03,2024-06-04,240000\nCLOSE,2024-06-04\n",
    ],
    record: "CLOSE,2024-06-05\n",
    is_refused: false,
    growths: 0,
    left: 0,
};

pub(super) const UNPAID_LATER: Case<'static> = Case {
    before: &[
        MEMBERS,
        "DIVIDEND,037833100,2024-06-03,2024-06-20,240000\nCLOSE,2024-06-04\n",
    ],
    record: "CLOSE,2024-06-05\n",
    is_refused: false,
    growths: 0,
    left: 0,
};

// Records of a book, and a command that is refused there.
pub(super) const REFUSED: [(&[&str], &str); 21] = [
    (&[MEMBERS], "MEMBER,1\n"),
    (&[MEMBERS], "ISSUE,037833100,19500\n"),
    (
        &[MEMBERS, TRADED],
        "TRADE,1,2,1,17275R102,60,1170000,2024-06-03\n",
    ),
    (
        &[MEMBERS, FULL],
        "TRADE,1000,1,3,17275R102,1,0,2024-06-03\n",
    ),
    (
        &[MEMBERS, FULL],
        "TRADE,1000,1,3,17275R102,1,0,2024-06-04\n",
    ),
    (&[MEMBERS], "TRADE,1000,1,3,17275R102,1,0,2024-06-09\n"),
    (&[MEMBERS], "PRICE,594918104,19600\n"),
    (&[MEMBERS, TRADED], "DELIVER,2,037833100,61\n"),
    (&[MEMBERS, TRADED], "RECEIVE,1,037833100,40\n"),
    (
        &[MEMBERS],
        "DIVIDEND,594918104,2024-06-04,2024-06-06,405000\n",
    ),
    (&[MEMBERS, TRADED], "SPLIT,594918104,3,2,3101\n"),
    // Member 1 would be long too many shares.
    (&[MEMBERS, FULL], "SPLIT,17275R102,3,2,3101\n"),
    (
        &[MEMBERS, FULL],
        "EXCHANGE,17275R102,037833100,2,1,18300,50\n",
    ),
    (
        &[MEMBERS, AHEAD],
        "EXCHANGE,037833100,17275R102,1,6,18300,50\n",
    ),
    (&[MEMBERS, AHEAD], "CLOSE,2024-06-03\n"),
    (&[MEMBERS, TRADED], "NOTICE,2,037833100,1\n"),
    (&[MEMBERS, TRADED, NOTICED], "WITHDRAW,2\n"),
    (
        &[MEMBERS, TRADED, NOTICED, TWO_CLOSES],
        "EXECUTE,1,81,160001\n",
    ),
    (&[MEMBERS, TRADED, NOTICED], "CLOSE,2024-06-03\n"),
    (&[MEMBERS, TRADED], "POSITION,4,037833100\n"),
    (&[MEMBERS, TRADED], "STATEMENT,1,2024-06-03\n"),
];
