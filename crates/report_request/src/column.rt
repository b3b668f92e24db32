//! The columns of reports: their names in text, and the keys of their members in JSON.

ghost use Rattle.std.specs.Prelude.{◌≡◌, ◌≤◌, length};
ghost use Rattle.report_request.specs.Columns.{attribute_name, columns_of, key_name, column_name};

use crate::request::Request;
use bgp_update::KeptAttribute;

/// Returns the name of an attribute that a route keeps where it is asked for.
pub fn attribute_name(attribute: KeptAttribute) -> &'static str
    ensures name { result.now ≡ attribute_name attribute }
    ensures short { length result.now ≤ 16 }
{
    match attribute {
        KeptAttribute::Communities => "communities",
        KeptAttribute::ExtendedCommunities => "extended",
        KeptAttribute::LargeCommunities => "large",
        KeptAttribute::OriginatorId => "originator",
        KeptAttribute::ClusterList => "clusters",
        KeptAttribute::OnlyToCustomer => "otc",
    }
}

/// The key of a member of a line in JSON.
#[derive(Clone, Copy)]
pub enum Key {
    Timestamp,
    PeerAsn,
    PeerIp,
    What,
    By,
    Prefix,
    PathId,
    AsPath,
    OriginAsns,
    NextHop,
    Origin,
    Med,
    LocalPref,
    Atomic,
    AggrAsn,
    AggrIp,
    Kept(KeptAttribute),
    Peers,
    OriginAsn,
    New,
    Changed,
    Same,
    Gone,
    Void,
    Resets,
    Idle,
    Refused,
    First,
    Last,
    State,
    Routes,
    Units,
    File,
    Offset,
    Entry,
    Number,
    Fault,
}

impl Key {
    /// Its name.
    pub fn name(self) -> &'static str
        ensures name { result.now ≡ key_name self }
        ensures short { length result.now ≤ 16 }
    {
        match self {
            Key::Timestamp => "timestamp",
            Key::PeerAsn => "peer_asn",
            Key::PeerIp => "peer_ip",
            Key::What => "what",
            Key::By => "by",
            Key::Prefix => "prefix",
            Key::PathId => "path_id",
            Key::AsPath => "as_path",
            Key::OriginAsns => "origin_asns",
            Key::NextHop => "next_hop",
            Key::Origin => "origin",
            Key::Med => "med",
            Key::LocalPref => "local_pref",
            Key::Atomic => "atomic",
            Key::AggrAsn => "aggr_asn",
            Key::AggrIp => "aggr_ip",
            Key::Kept(attribute) => attribute_name(attribute),
            Key::Peers => "peers",
            Key::OriginAsn => "origin_asn",
            Key::New => "new",
            Key::Changed => "changed",
            Key::Same => "same",
            Key::Gone => "gone",
            Key::Void => "void",
            Key::Resets => "resets",
            Key::Idle => "idle",
            Key::Refused => "refused",
            Key::First => "first",
            Key::Last => "last",
            Key::State => "state",
            Key::Routes => "routes",
            Key::Units => "units",
            Key::File => "file",
            Key::Offset => "offset",
            Key::Entry => "entry",
            Key::Number => "number",
            Key::Fault => "fault",
        }
    }
}

/// A column of a report. It stands for one field of text, and for one member in JSON or two.
#[derive(Clone, Copy)]
pub enum Column {
    /// When something happened: the member `timestamp`.
    Time,
    /// A peer: the members `peer_asn` and `peer_ip`.
    Peer,
    /// The key of a route: the members `prefix` and `path_id`.
    RouteKey,
    /// A path: the members `as_path` and `origin_asns`.
    Path,
    /// AGGREGATOR: the members `aggr_asn` and `aggr_ip`.
    Aggregator,
    /// The origin ASes of a prefix: the member `origin_asns`.
    Origins,
    /// The origin AS of routes: the member `origin_asn`.
    OriginAs,
    /// One that has the name of its only member.
    Of(Key),
}

impl Column {
    /// Its name in the header of text.
    pub fn name(self) -> &'static str
        ensures { result.now ≡ column_name self }
    {
        match self {
            Column::Time => "time",
            Column::Peer => "peer",
            Column::RouteKey => "prefix",
            Column::Path => "as_path",
            Column::Aggregator => "aggregator",
            Column::Origins => "origins",
            Column::OriginAs => "origin",
            Column::Of(key) => key.name(),
        }
    }
}

/// Columns, and behind them those of a route: its key, and its attributes.
macro_rules! and_route {
    [$($column:expr),+] => {
        [
            $($column,)+
            Column::RouteKey,
            Column::Path,
            Column::Of(Key::NextHop),
            Column::Of(Key::Origin),
            Column::Of(Key::Med),
            Column::Of(Key::LocalPref),
            Column::Of(Key::Atomic),
            Column::Aggregator,
        ]
    };
}

/// The columns of `tables` and `match`.
const ROUTES: [Column; 9] = and_route![Column::Peer];

/// Those of `history`.
const HISTORY: [Column; 12] = and_route![
    Column::Time,
    Column::Peer,
    Column::Of(Key::What),
    Column::Of(Key::By)
];

/// Those of `visibility`.
const VISIBILITY: [Column; 2] = [Column::Of(Key::Prefix), Column::Of(Key::Peers)];

/// Those of `origins`.
const ORIGINS: [Column; 2] = [Column::Of(Key::Prefix), Column::Origins];

/// Those of `seen`.
const SEEN: [Column; 3] = [
    Column::Of(Key::Prefix),
    Column::OriginAs,
    Column::Of(Key::Peers),
];

/// Those of `churn`.
const CHURN: [Column; 11] = [
    Column::Peer,
    Column::Of(Key::New),
    Column::Of(Key::Changed),
    Column::Of(Key::Same),
    Column::Of(Key::Gone),
    Column::Of(Key::Void),
    Column::Of(Key::Resets),
    Column::Of(Key::Idle),
    Column::Of(Key::Refused),
    Column::Of(Key::First),
    Column::Of(Key::Last),
];

/// Those of `peers`.
const PEERS: [Column; 9] = [
    Column::Peer,
    Column::Of(Key::State),
    Column::Of(Key::Routes),
    Column::Of(Key::Units),
    Column::Of(Key::First),
    Column::Of(Key::Last),
    Column::Of(Key::File),
    Column::Of(Key::Offset),
    Column::Of(Key::Entry),
];

/// Those of `faults`.
const FAULTS: [Column; 5] = [
    Column::Of(Key::File),
    Column::Of(Key::Offset),
    Column::Of(Key::Entry),
    Column::Of(Key::Number),
    Column::Of(Key::Fault),
];

/// Returns the columns that a report has in any case. Those of the attributes that are asked for follow where it lists
/// routes.
pub fn columns<A>(request: &Request<A>) -> &'static [Column]
    ensures { result.now ≡ columns_of request.now }
{
    match request {
        Request::Tables | Request::Match(_) => &ROUTES,
        Request::Visibility => &VISIBILITY,
        Request::Origins => &ORIGINS,
        Request::Seen => &SEEN,
        Request::Churn { since: _ } => &CHURN,
        Request::Peers => &PEERS,
        Request::History { since: _, same: _ } => &HISTORY,
        Request::Faults => &FAULTS,
    }
}
