//! The options, the commands and their columns: help, manual page, README, usage page and completions are made from
//! these tables (`tools/options.py` reads this file). The names alone stand elsewhere too: of commands where they are
//! read (`words.rt`) and in advice on packed dumps (`replay_messages/src/telling.rt`), of columns where lines are made
//! (`report_request/src/column.rt`).

/// What an option takes behind it.
#[derive(Clone, Copy)]
pub enum Takes {
    /// Nothing: it is on where it stands.
    Nothing,
    /// A number within these bounds. The last one counts.
    Number(i64, i64),
    /// A text. The last one counts.
    Text,
    /// A text. All count.
    Texts,
}

/// An option.
#[derive(Clone, Copy)]
pub struct OptionRow {
    pub name: &'static str,
    /// What its value is called, or nothing.
    pub value: &'static str,
    pub takes: Takes,
    /// The value without it, or nothing.
    pub default: &'static str,
    /// Values that a completion offers, split by blanks.
    pub offered: &'static str,
    /// The commands that have it, split by blanks, or nothing for all.
    pub commands: &'static str,
    pub is_required: bool,
    /// What it does. The first sentence stands alone in completions.
    pub meaning: &'static str,
}

/// A column of a report: its name, and what it says.
#[derive(Clone, Copy)]
pub struct ColumnRow(pub &'static str, pub &'static str);

/// A command.
#[derive(Clone, Copy)]
pub struct CommandRow {
    pub name: &'static str,
    pub meaning: &'static str,
    pub columns: &'static [ColumnRow],
    /// The order of its lines, and which there are.
    pub order: &'static str,
    pub examples: &'static [&'static str],
}

pub static OPTIONS: [OptionRow; 28] = [
    OptionRow {
        name: "address",
        value: "A",
        takes: Takes::Text,
        default: "",
        offered: "",
        commands: "match",
        is_required: true,
        meaning: "Look up this address, as 192.0.2.1, or 2001:db8::1 with --family ipv6",
    },
    OptionRow {
        name: "files-from",
        value: "FILE",
        takes: Takes::Texts,
        default: "",
        offered: "",
        commands: "",
        is_required: false,
        meaning: "Replay the dumps that this file names, too. Each line is a name, or, if the file has a NUL byte, what each NUL byte ends; empty lines are passed over, and '-' is standard input. They come behind those of the arguments, in order",
    },
    OptionRow {
        name: "family",
        value: "FAMILY",
        takes: Takes::Text,
        default: "ipv4",
        offered: "ipv4 ipv6",
        commands: "",
        is_required: false,
        meaning: "Say which unicast routes are replayed, those of ipv4 or those of ipv6. A run replays one family: RIB records of the other are set aside, and what a message says of the other's prefixes is passed over",
    },
    OptionRow {
        name: "prefix",
        value: "PREFIX",
        takes: Takes::Texts,
        default: "",
        offered: "",
        commands: "",
        is_required: false,
        meaning: "Report on this prefix alone. 192.0.2.0/24 is that prefix, 192.0.2.0/24+ also its more specifics, and 192.0.2.0/24- also the prefixes that contain it; an address alone has length 32. With --family ipv6 it is one as 2001:db8::/32, and an address alone has length 128. Given more than once, each prefix adds to the others",
    },
    OptionRow {
        name: "prefixes",
        value: "FILE",
        takes: Takes::Texts,
        default: "",
        offered: "",
        commands: "",
        is_required: false,
        meaning: "Report on the prefixes in this file alone. Each line is one as --prefix takes it; empty lines and lines that begin with # are passed over, and '-' is standard input. They add to those of --prefix and of other files",
    },
    OptionRow {
        name: "peer",
        value: "PEER",
        takes: Takes::Texts,
        default: "",
        offered: "",
        commands: "",
        is_required: false,
        meaning: "Report on this peer alone. PEER is an AS number, or one with an address, as 65001,192.0.2.1 or '65001 192.0.2.1'. Given more than once, each peer adds to the others",
    },
    OptionRow {
        name: "peers",
        value: "I/N",
        takes: Takes::Text,
        default: "",
        offered: "",
        commands: "",
        is_required: false,
        meaning: "Report on the Ith of N shares of the peers alone. N is at most 65536, and each peer is in one share",
    },
    OptionRow {
        name: "origin",
        value: "AS",
        takes: Takes::Texts,
        default: "",
        offered: "",
        commands: "tables visibility origins seen churn peers match history",
        is_required: false,
        meaning: "Report on routes of this origin AS alone. AS is a number, or - for routes that have no origin AS. history lists what happens to a key where its route after or before is one of them, and churn counts these lines; so it is for --path and --community. Given more than once, each AS adds to the others; where --path or --community is given, a route has to meet that, too",
    },
    OptionRow {
        name: "path",
        value: "MASK",
        takes: Takes::Texts,
        default: "",
        offered: "",
        commands: "tables visibility origins seen churn peers match history",
        is_required: false,
        meaning: "Report only on routes whose AS path matches this mask. MASK is words with blanks between that spell the whole path: an AS number, A..B for one of that range, ? for any one, and * for any number of them or none; '* 64496' is what 64496 originates. A set in the path takes one word, which has to match one of its numbers; [= and =] may stand round all words, and alone are the mask of an empty path. Given more than once, each mask adds to the others; where --origin or --community is given, a route has to meet that, too",
    },
    OptionRow {
        name: "community",
        value: "C",
        takes: Takes::Texts,
        default: "",
        offered: "",
        commands: "tables visibility origins seen churn peers match history",
        is_required: false,
        meaning: "Report only on routes that have this community. C is a community, as 65000:666; a large one, as 65000:1:2; or an extended one, as rt:65000:1, ro:192.0.2.1:1 or 0x and sixteen digits; each part may be * for any. Routes keep the attribute of its kind, as with --attributes: it is one more column at the end of tables, match and history, and routes that differ in it are two routes. Given more than once, each C adds to the others; where --origin or --path is given, a route has to meet that, too",
    },
    OptionRow {
        name: "until",
        value: "TIME",
        takes: Takes::Text,
        default: "",
        offered: "",
        commands: "",
        is_required: false,
        meaning: "Leave out messages, state changes and entries recorded after this second. TIME is a number of seconds since 1970 UTC, a date, as 2024-01-01 (its midnight in UTC), or a date and time with an offset from UTC, as 2024-01-01T01:00:00Z, where a blank may stand for the T",
    },
    OptionRow {
        name: "since",
        value: "TIME",
        takes: Takes::Text,
        default: "",
        offered: "",
        commands: "churn history",
        is_required: false,
        meaning: "List or count what was recorded from this second on. What was recorded before is replayed, and neither listed nor counted. TIME is as that of --until",
    },
    OptionRow {
        name: "states",
        value: "RULE",
        takes: Takes::Text,
        default: "recorded",
        offered: "recorded established",
        commands: "",
        is_required: false,
        meaning: "Say which state changes end a peer's routes. With recorded each does but one from 6 (Established) to 6, and the peer is up where the new state is 6. With established, for dumps of FRR, one does where either of its states is 6 and the other isn't, and what comes between is taken whatever the states are",
    },
    OptionRow {
        name: "state-peers",
        value: "RULE",
        takes: Takes::Text,
        default: "recorded",
        offered: "recorded local by-as",
        commands: "",
        is_required: false,
        meaning: "Say whose state a state change is. With recorded it is the recorded peer's. With local, for dumps of OpenBGPD, it is that of the record's local AS and address, and where that AS is 0 or 23456, that of each known peer of the address. With by-as, for dumps of BIRD, one whose peer address is 0.0.0.0 or :: is that of each known peer of its AS. A peer is known where an index table has named it, or a message, a state change or an entry was its, before in the files",
    },
    OptionRow {
        name: "rib",
        value: "RULE",
        takes: Takes::Text,
        default: "add",
        offered: "add replace",
        commands: "",
        is_required: false,
        meaning: "Say what a RIB dump does to the routes before it. With add its entries are announcements like others. With replace its first record behind an index table clears all tables, so that routes that have gone don't stay",
    },
    OptionRow {
        name: "table-dump",
        value: "RULE",
        takes: Takes::Text,
        default: "aside",
        offered: "aside read",
        commands: "",
        is_required: false,
        meaning: "Say what is done with TABLE_DUMP records, as RIB dumps from before about 2008 and OpenBGPD's dump table have them. With aside they are counted and not read. With read each is an entry of its peer's table, with AS numbers of two bytes, and none begins a RIB dump for --rib replace",
    },
    OptionRow {
        name: "errors",
        value: "RULE",
        takes: Takes::Text,
        default: "skip",
        offered: "skip rfc7606",
        commands: "",
        is_required: false,
        meaning: "Say what is done about damaged messages and RIB entries. With skip they change no route. With rfc7606 they are taken as a speaker that follows RFC 7606 takes them. A malformed ATOMIC_AGGREGATE or AGGREGATOR counts as absent, and so does a malformed LOCAL_PREF, ORIGINATOR_ID or CLUSTER_LIST of a peer of another AS. For any other malformed attribute, and for a missing ORIGIN, AS_PATH or NEXT_HOP, a message withdraws all of its prefixes. One whose own prefixes, MP_REACH_NLRI or MP_UNREACH_NLRI can't be read is skipped, and so is an entry in which anything but the first two is malformed. Faults are listed and counted in either case",
    },
    OptionRow {
        name: "written-by",
        value: "NAME",
        takes: Takes::Text,
        default: "",
        offered: "bird frr openbgpd gobgp",
        commands: "",
        is_required: false,
        meaning: "Take the rules that fit the dumps of this daemon. For bird they are --states established --state-peers by-as, for frr --states established, for openbgpd --state-peers local, and for gobgp --rib replace. Where one of these options is given, its value counts",
    },
    OptionRow {
        name: "format",
        value: "FORM",
        takes: Takes::Text,
        default: "text",
        offered: "text json",
        commands: "",
        is_required: false,
        meaning: "Say how lines are written: fields with | between them, or JSON, one object a line. In JSON what is absent is null, IPv6 addresses are short, and --addresses and --header have no effect",
    },
    OptionRow {
        name: "addresses",
        value: "FORM",
        takes: Takes::Text,
        default: "full",
        offered: "full short",
        commands: "",
        is_required: false,
        meaning: "Say how IPv6 addresses are printed, those of peers and of next hops alike. With full each has eight groups of four digits. With short leading zeros are left out, and :: stands for the longest run of zero groups (RFC 5952). With --family ipv6 prefixes and next hops are short in either case",
    },
    OptionRow {
        name: "attributes",
        value: "LIST",
        takes: Takes::Texts,
        default: "",
        offered: "communities extended large originator clusters otc all",
        commands: "",
        is_required: false,
        meaning: "Keep these further attributes of routes. LIST is all, or names joined by commas: communities, printed as 65000:666; extended, as rt:65000:1, ro:192.0.2.1:1 or 0x and sixteen digits; large, as 65000:1:2; originator and clusters, as 192.0.2.1; otc, as 65000. Each is one more column at the end of tables, match and history, in this order, and routes that differ in one of them are two routes. Given more than once, each list adds to the others",
    },
    OptionRow {
        name: "same",
        value: "",
        takes: Takes::Nothing,
        default: "",
        offered: "",
        commands: "history",
        is_required: false,
        meaning: "List announcements of the very route that was there, too",
    },
    OptionRow {
        name: "header",
        value: "",
        takes: Takes::Nothing,
        default: "",
        offered: "",
        commands: "",
        is_required: false,
        meaning: "Print the columns' names first",
    },
    OptionRow {
        name: "summary",
        value: "",
        takes: Takes::Nothing,
        default: "",
        offered: "",
        commands: "",
        is_required: false,
        meaning: "Say on standard error what was read, in lines of a key and a value",
    },
    OptionRow {
        name: "progress",
        value: "",
        takes: Takes::Nothing,
        default: "",
        offered: "",
        commands: "",
        is_required: false,
        meaning: "Show on standard error how far the reading of all files is",
    },
    OptionRow {
        name: "quiet",
        value: "",
        takes: Takes::Nothing,
        default: "",
        offered: "",
        commands: "",
        is_required: false,
        meaning: "Leave out the notes on standard error. They tell of dumps that are likely not what was meant, as files in another order",
    },
    OptionRow {
        name: "workers",
        value: "N",
        takes: Takes::Number(1, 64),
        default: "",
        offered: "1 2 4 8 16 32 64",
        commands: "",
        is_required: false,
        meaning: "Replay with this many threads, 1 to 64, beside which as many unpack packed dumps; with 1, one thread does all. The report doesn't depend on it; one thread alone makes history, and churn with prefixes or --since [default: one for each processor, or one alone where few prefixes are chosen, and as many that unpack as there are processors]",
    },
    OptionRow {
        name: "ring",
        value: "N",
        takes: Takes::Number(1, 65536),
        default: "1024",
        offered: "1 64 1024 65536",
        commands: "",
        is_required: false,
        meaning: "Let this many messages and entries wait for each thread, 1 to 65536. The report doesn't depend on it",
    },
];

const PEER: ColumnRow = ColumnRow("peer", "the peer's AS, a space, its address");

const KEY: ColumnRow = ColumnRow(
    "prefix",
    "ADDRESS/LENGTH, and #ID behind it where the route has a path identifier (ADD-PATH)",
);

const ORIGIN: ColumnRow = ColumnRow("origin", "IGP, EGP or INCOMPLETE");

const MED: ColumnRow = ColumnRow("med", "MULTI_EXIT_DISC");

const LOCAL_PREF: ColumnRow = ColumnRow("local_pref", "LOCAL_PREF");

const ATOMIC: ColumnRow = ColumnRow("atomic", "`atomic` where the route has ATOMIC_AGGREGATE");

const AGGREGATOR: ColumnRow = ColumnRow("aggregator", "its AS, a space, its address");

const ROUTE_COLUMNS: &[ColumnRow] = &[
    PEER,
    KEY,
    ColumnRow(
        "as_path",
        "AS numbers; a set is {1,2}, a confederation's sequence (1 2) and its set [1,2]",
    ),
    ColumnRow(
        "next_hop",
        "an IPv4 or IPv6 address, or a global and a link-local IPv6 address",
    ),
    ORIGIN,
    MED,
    LOCAL_PREF,
    ATOMIC,
    AGGREGATOR,
];

const VISIBILITY_COLUMNS: &[ColumnRow] = &[
    ColumnRow("prefix", "ADDRESS/LENGTH"),
    ColumnRow("peers", "how many peers' tables have a route to it"),
];

const ORIGINS_COLUMNS: &[ColumnRow] = &[
    ColumnRow("prefix", "ADDRESS/LENGTH"),
    ColumnRow(
        "origins",
        "the ASes that end the paths to it, ascending, split by a space; two at least",
    ),
];

const SEEN_COLUMNS: &[ColumnRow] = &[
    ColumnRow("prefix", "ADDRESS/LENGTH"),
    ColumnRow(
        "origin",
        "the AS that ends the paths to it, or '-' for routes without one",
    ),
    ColumnRow(
        "peers",
        "how many peers' tables have a route to it with this origin AS",
    ),
];

const CHURN_COLUMNS: &[ColumnRow] = &[
    PEER,
    ColumnRow("new", "announcements of what the table didn't have"),
    ColumnRow(
        "changed",
        "announcements that put another route in place of the one that it had",
    ),
    ColumnRow("same", "announcements of the very route that it had"),
    ColumnRow("gone", "withdrawals of what the table had"),
    ColumnRow("void", "withdrawals of what it didn't have"),
    ColumnRow(
        "resets",
        "changes of the session's state that empty the table",
    ),
    ColumnRow(
        "idle",
        "updates and table entries while the session wasn't up",
    ),
    ColumnRow("refused", "damaged messages and entries"),
    ColumnRow(
        "first",
        "seconds since 1970 UTC of the peer's first record that counts, with six digits behind the point",
    ),
    ColumnRow("last", "those of its last one"),
];

const PEERS_COLUMNS: &[ColumnRow] = &[
    PEER,
    ColumnRow(
        "state",
        "`up`, or `down` where the last recorded change of the session's state led to another state than Established; with --states established, where the last one into or out of Established led out of it",
    ),
    ColumnRow("routes", "how many routes its table has"),
    ColumnRow(
        "units",
        "how many messages, state changes and table entries it has, damaged ones among them",
    ),
    ColumnRow(
        "first",
        "seconds since 1970 UTC of the first of these, with six digits behind the point",
    ),
    ColumnRow("last", "those of the last one"),
    ColumnRow(
        "file",
        "the number of the file, from 1, that has the first of these",
    ),
    ColumnRow(
        "offset",
        "where its record begins, in bytes from the file's start",
    ),
    ColumnRow("entry", "its number in a table record, from 1"),
];

const HISTORY_COLUMNS: &[ColumnRow] = &[
    ColumnRow(
        "time",
        "seconds since 1970 UTC, with six digits behind the point",
    ),
    PEER,
    ColumnRow(
        "what",
        "`new`, `changed` or `same`: announced, where the table had no route, another one or this one; `gone` or `void`: withdrawn, where it had a route or none; `lost`: taken by a change of the session's state, or by a RIB dump under --rib replace",
    ),
    ColumnRow(
        "by",
        "`rib`: an entry of a table, or, of what is lost, a RIB dump; `update`: a message; `state`: a change of the session's state",
    ),
    KEY,
    ColumnRow(
        "as_path",
        "that of the route after it, or, where it is gone or lost, of the route before; the columns behind are of the same route",
    ),
    ColumnRow("next_hop", "as of tables"),
    ORIGIN,
    MED,
    LOCAL_PREF,
    ATOMIC,
    AGGREGATOR,
];

const FAULTS_COLUMNS: &[ColumnRow] = &[
    ColumnRow("file", "the number of the file, from 1"),
    ColumnRow(
        "offset",
        "where the damaged record begins, in bytes from the file's start",
    ),
    ColumnRow("entry", "the damaged entry of a table record, from 1"),
    ColumnRow("number", "the fault's number, 1 to 15"),
    ColumnRow(
        "fault",
        "its name; behind BadAttribute stands the attribute's type",
    ),
];

pub static COMMANDS: [CommandRow; 9] = [
    CommandRow {
        name: "tables",
        meaning: "Print every route of every peer",
        columns: ROUTE_COLUMNS,
        order: "Peers come in the order in which the dumps first name them, and a peer's routes by prefix. Communities and five more attributes have columns where --attributes or --community asks for them.",
        examples: &[
            "tables --header rib.mrt updates.mrt",
            "tables --until 2024-01-01T01:00:00Z rib.mrt updates.mrt",
            "tables --prefix 192.0.2.0/24+ rib.mrt updates.mrt",
        ],
    },
    CommandRow {
        name: "visibility",
        meaning: "Count the peers that have each prefix",
        columns: VISIBILITY_COLUMNS,
        order: "Prefixes come in order; one that no table has isn't there.",
        examples: &[
            "visibility --header rib.mrt",
            "visibility rib.mrt updates.mrt | awk -F'|' '$2 < 3'",
        ],
    },
    CommandRow {
        name: "origins",
        meaning: "Print the prefixes that have more than one origin AS",
        columns: ORIGINS_COLUMNS,
        order: "Prefixes come in order; one of a single origin AS isn't there.",
        examples: &[
            "origins --header rib.mrt",
            "origins --until 2024-01-01T01:00:00Z rib.mrt updates.mrt",
        ],
    },
    CommandRow {
        name: "seen",
        meaning: "Count the peers that have each prefix with each origin AS",
        columns: SEEN_COLUMNS,
        order: "Lines come by prefix and origin AS, '-' last. The lines of several runs on different peers add up.",
        examples: &[
            "seen --prefix 192.0.2.0/24+ rib.mrt updates.mrt",
            "seen --peers 1/2 rib.mrt updates.mrt",
        ],
    },
    CommandRow {
        name: "churn",
        meaning: "Count what each peer announced and withdrew",
        columns: CHURN_COLUMNS,
        order: "Peers come in the order in which the dumps first name them.",
        examples: &[
            "churn --header updates.mrt",
            "churn --until 2024-01-01T01:00:00Z rib.mrt updates.mrt",
            "churn --prefix 192.0.2.0/24+ --since 2024-01-01T01:00:00Z rib.mrt updates.mrt",
        ],
    },
    CommandRow {
        name: "peers",
        meaning: "List the peers, whether they are up, their routes, and where they begin",
        columns: PEERS_COLUMNS,
        order: "Peers come in the order in which the dumps first name them: by file, offset and entry.",
        examples: &[
            "peers --header rib.mrt updates.mrt",
            "peers --until 2024-01-01T01:00:00Z rib.mrt updates.mrt",
        ],
    },
    CommandRow {
        name: "match",
        meaning: "Print each peer's routes of the longest prefix that contains an address",
        columns: ROUTE_COLUMNS,
        order: "Peers come in the order in which the dumps first name them; a peer without such a route has no line. Communities and five more attributes have columns where --attributes or --community asks for them.",
        examples: &[
            "match --address 192.0.2.1 rib.mrt",
            "match --address 192.0.2.1 --until 1704070800 rib.mrt updates.mrt",
        ],
    },
    CommandRow {
        name: "history",
        meaning: "List what happened to each prefix, when and at which peer",
        columns: HISTORY_COLUMNS,
        order: "Lines come as the dumps record it, and those of one message as it changes the table: withdrawals first. Communities and five more attributes have columns with --attributes alone.",
        examples: &[
            "history --prefix 192.0.2.0/24+ rib.mrt updates.mrt",
            "history --prefix 192.0.2.0/24 --since 2024-01-01T01:00:00Z rib.mrt updates.mrt",
        ],
    },
    CommandRow {
        name: "faults",
        meaning: "List the damaged records of the dumps",
        columns: FAULTS_COLUMNS,
        order: "Lines come by file, offset and entry.",
        examples: &[
            "faults --header rib.mrt updates.mrt",
            "faults - < updates.mrt",
        ],
    },
];

impl OptionRow {
    /// Whether a command has it.
    pub fn is_of(&self, command: &str) -> bool {
        self.commands.is_empty() || self.commands.split(' ').any(|name| name == command)
    }
}
