//! The command-line arguments.

ghost use Rattle.std.specs.Prelude.{◌≡◌, ◌<◌, ◌≤◌, ◌+◌, IfErr, IfOk, vec_len};
ghost use Rattle.command_line.specs.Words.{IsRefusal};
ghost use Rattle.command_line.specs.declared.words.Usage.TheVariants.{Memory};
ghost use Rattle.command_line.specs.Families.{SpellsIn};

use crate::address_family::AddressFamily;
use crate::address_text::AddressText;
use crate::attributes::{add_attributes, attribute_names};
use crate::build::version_text;
use crate::choice::{fault_of_reach, hint_of_reach, read_choice};
use crate::commands::{closings, command};
use crate::moment::read_second;
use crate::peers::{read_peer, read_share};
use crate::refusal::refusal_of;
use crate::routes::{fault_of_mask, read_origin};
use crate::written_by::{Daemon, DumpRules, NamedRules};
use bgp_prefix::{Ipv6, Prefix};
use bgp_update::{AttributeSet, ErrorRule, FamilyMark, Unicast};
use clap::error::ErrorKind;
use clap::parser::ValueSource;
use clap::{ArgMatches, Error};
use peer_units::{PeerChoice, PrefixChoice, RibRule, Share, StatePeers, StateRule, TableDumpRule};
use report_request::{AddressForm, Format, Layout, LayoutOf, Request};
use route_choice::{
    ChosenRoutes, CommunityPattern, MaskError, PathMask, read_community, read_mask,
};
use std::alloc::{AllocError, AllocFailed, Global};

static WORKERS_DEFAULT: usize = 4;

static RING_DEFAULT: usize = 1024;

/// What the arguments ask for, of the routes of one family.
#[derive(Drop)]
pub struct Job<F: Unicast = u32> {
    pub request: Request<F>,
    /// How its lines are written.
    pub layout: LayoutOf<F>,
    /// 1 to 64; 4 if the arguments don't say.
    pub workers: usize,
    /// Whether the arguments give the number of workers.
    pub has_workers: bool,
    /// 1 to 65,536.
    pub ring: usize,
    /// A second since 1970 UTC.
    pub until: Option<u64>,
    /// By which rule state changes are taken.
    pub states: StateRule,
    /// Whose state a state change is.
    pub state_peers: StatePeers,
    /// What a RIB dump does to the routes before it.
    pub ribs: RibRule,
    /// What is done with TABLE_DUMP records.
    pub table_dumps: TableDumpRule,
    /// What is done about damage.
    pub errors: ErrorRule,
    /// The prefixes that are chosen, or none for all.
    pub prefixes: Vec<PrefixChoice<Prefix<F>>>,
    /// The files whose lines add to them; `-` is standard input.
    pub lists: Vec<String>,
    /// The peers that are chosen, or none for all.
    pub peers: Vec<PeerChoice>,
    /// The share of the peers that is chosen, or none for all.
    pub share: Option<Share>,
    /// The routes that are chosen. The attributes that they need are among those of the layout.
    pub routes: ChosenRoutes,
    /// Whether the columns' names come first.
    pub header: bool,
    /// Whether a summary of what was read goes to standard error.
    pub summary: bool,
    /// Whether standard error shows the reading progress.
    pub progress: bool,
    /// Whether nothing is remarked about the dumps.
    pub quiet: bool,
    /// The dumps; `-` is standard input. If there is none, a list names some.
    pub files: Vec<String>,
    /// The files whose names add to them; `-` is standard input.
    pub file_lists: Vec<String>,
    ghost workers_in: { (1 ≤ workers) × (workers ≤ 64) },
    ghost ring_in: { (1 ≤ ring) × (ring ≤ 65536) },
    ghost some_file: { 0 < vec_len files + vec_len file_lists },
}

/// A job on the routes of the family that the arguments ask for.
#[derive(Drop)]
pub enum Asked {
    Ipv4(Job<u32>),
    Ipv6(Job<Ipv6>),
}

/// Why there is no job.
#[derive(Drop)]
pub enum Usage {
    /// Help or the version was asked for: its text, for standard output. Lines of help may be long.
    Help(String),
    /// Bad arguments: why, for standard error.
    Words(String),
    /// The argument given as an address is none of this family.
    Address(AddressFamily, String),
    /// An allocation failed.
    Memory,
}

impl From<AllocError> for Usage {
    ghost from_gives = { λ _ usage. usage ≡ Memory };

    fn from(_error: AllocError) -> Usage {
        Usage::Memory
    }
}

impl<T: Drop> From<AllocFailed<T>> for Usage {
    ghost from_gives = { λ _ usage. usage ≡ Memory };

    fn from(_error: AllocFailed<T>) -> Usage {
        Usage::Memory
    }
}

/// Returns the address that the arguments name.
fn address_of<F: AddressText>(alloc: Global, text: &str) -> Result<F, Usage>
    ensures number { IfOk result (λ address. SpellsIn F.FAMILY text.now (F.bits address)) }
    ensures refusal { IfErr result IsRefusal }
{
    match F::address_in(text.as_bytes()) {
        Some(address) => Ok(address),
        None => Err(Usage::Address(F::FAMILY, String::from_str(alloc, text)?)),
    }
}

/// Returns the report that a command's name asks for.
fn request_of<F: AddressText>(
    alloc: Global,
    name: &str,
    matches: &ArgMatches<'_>,
) -> Result<Request<F>, Usage>
    ensures { IfErr result IsRefusal }
{
    match name {
        "visibility" => Ok(Request::Visibility),
        "origins" => Ok(Request::Origins),
        "seen" => Ok(Request::Seen),
        "churn" => Ok(Request::Churn {
            since: second_of(alloc, "since", matches)?,
        }),
        "peers" => Ok(Request::Peers),
        "faults" => Ok(Request::Faults),
        "history" => Ok(Request::History {
            since: second_of(alloc, "since", matches)?,
            same: matches.get_flag("same"),
        }),
        "match" => {
            let text = matches.get_str("address").unwrap_or("");
            Ok(Request::Match(address_of(alloc, text)?))
        }
        _ => Ok(Request::Tables),
    }
}

/// Returns the second from which on a report lists or counts, if it has one.
fn since_of<F: Unicast>(request: &Request<F>) -> Option<u64> {
    match request {
        Request::Churn { since } => *since,
        Request::History { since, same: _ } => *since,
        _ => None,
    }
}

/// Whether a report lists or counts what was recorded from a second on that is after the last one.
fn is_never<F: Unicast>(request: &Request<F>, until: Option<u64>) -> bool {
    match (since_of(request), until) {
        (Some(since), Some(until)) => since > until,
        _ => false,
    }
}

/// Refuses arguments that the parser accepts but that no job has.
fn refused(alloc: Global, text: &str) -> Result<Usage, AllocError>
    ensures { IfOk result IsRefusal }
{
    Ok(Usage::Words(String::from_str(alloc, text)?))
}

/// Returns the family whose routes are replayed.
fn family_of(alloc: Global, matches: &ArgMatches<'_>) -> Result<AddressFamily, Usage>
    ensures { IfErr result IsRefusal }
{
    match matches.get_str("family").unwrap_or("ipv4") {
        "ipv4" => Ok(AddressFamily::Ipv4),
        "ipv6" => Ok(AddressFamily::Ipv6),
        text => Err(Usage::Words(format!(in alloc;
            "error: invalid value '{text}' for '--family <FAMILY>': neither ipv4 nor ipv6\n"
        )?)),
    }
}

/// Returns the second that an option names, `--until` or `--since`, if it is given.
fn second_of(alloc: Global, name: &str, matches: &ArgMatches<'_>) -> Result<Option<u64>, Usage>
    ensures { IfErr result IsRefusal }
{
    let Some(text) = matches.get_str(name) else {
        return Ok(None);
    };
    match read_second(text) {
        Some(second) => Ok(Some(second)),
        None => Err(Usage::Words(format!(in alloc;
            "error: invalid value '{text}' for '--{name} <TIME>': neither seconds since 1970 UTC, nor a date, nor a date and time with its offset from UTC\n  it may be 1704070800, 2024-01-01, 2024-01-01T01:00:00Z or 2024-01-01T02:00:00+01:00\n"
        )?)),
    }
}

/// Returns the value of an option where the arguments give it, and none where it would be the default.
fn given<'a>(name: &str, matches: &ArgMatches<'a>) -> Option<&'a str> {
    match matches.value_source(name) {
        Some(ValueSource::CommandLine) => matches.get_str(name),
        _ => None,
    }
}

/// Returns the rule by which state changes are taken, if the arguments name it.
fn states_of(alloc: Global, matches: &ArgMatches<'_>) -> Result<Option<StateRule>, Usage>
    ensures { IfErr result IsRefusal }
{
    match given("states", matches) {
        None => Ok(None),
        Some("recorded") => Ok(Some(StateRule::Recorded)),
        Some("established") => Ok(Some(StateRule::Established)),
        Some(text) => Err(Usage::Words(format!(in alloc;
            "error: invalid value '{text}' for '--states <RULE>': neither recorded nor established\n"
        )?)),
    }
}

/// Returns the rule that says whose state a state change is, if the arguments name it.
fn state_peers_of(alloc: Global, matches: &ArgMatches<'_>) -> Result<Option<StatePeers>, Usage>
    ensures { IfErr result IsRefusal }
{
    match given("state-peers", matches) {
        None => Ok(None),
        Some("recorded") => Ok(Some(StatePeers::Recorded)),
        Some("local") => Ok(Some(StatePeers::Local)),
        Some("by-as") => Ok(Some(StatePeers::ByAs)),
        Some(text) => Err(Usage::Words(format!(in alloc;
            "error: invalid value '{text}' for '--state-peers <RULE>': neither recorded, local nor by-as\n"
        )?)),
    }
}

/// Returns the rule that says what a RIB dump does to the routes before it, if the arguments name it.
fn ribs_of(alloc: Global, matches: &ArgMatches<'_>) -> Result<Option<RibRule>, Usage>
    ensures { IfErr result IsRefusal }
{
    match given("rib", matches) {
        None => Ok(None),
        Some("add") => Ok(Some(RibRule::Add)),
        Some("replace") => Ok(Some(RibRule::Replace)),
        Some(text) => Err(Usage::Words(format!(in alloc;
            "error: invalid value '{text}' for '--rib <RULE>': neither add nor replace\n"
        )?)),
    }
}

/// Returns the daemon that wrote the dumps, if the arguments name it.
fn written_by(alloc: Global, matches: &ArgMatches<'_>) -> Result<Option<Daemon>, Usage>
    ensures { IfErr result IsRefusal }
{
    let Some(text) = matches.get_str("written-by") else {
        return Ok(None);
    };
    match Daemon::named(text) {
        Some(daemon) => Ok(Some(daemon)),
        None => Err(Usage::Words(format!(in alloc;
            "error: invalid value '{text}' for '--written-by <NAME>': no daemon whose dumps are known by this name\n  it may be bird, frr, openbgpd or gobgp\n"
        )?)),
    }
}

/// Returns the rules that fit the daemon that wrote the dumps, but for those that the arguments name.
fn dump_rules_of(alloc: Global, matches: &ArgMatches<'_>) -> Result<DumpRules, Usage>
    ensures { IfErr result IsRefusal }
{
    let named = NamedRules {
        states: states_of(alloc, matches)?,
        state_peers: state_peers_of(alloc, matches)?,
        ribs: ribs_of(alloc, matches)?,
    };
    let daemon = written_by(alloc, matches)?;
    Ok(DumpRules::by(daemon, &named))
}

/// Returns what is done with TABLE_DUMP records.
fn table_dumps_of(alloc: Global, matches: &ArgMatches<'_>) -> Result<TableDumpRule, Usage>
    ensures { IfErr result IsRefusal }
{
    match matches.get_str("table-dump").unwrap_or("aside") {
        "aside" => Ok(TableDumpRule::Aside),
        "read" => Ok(TableDumpRule::Read),
        text => Err(Usage::Words(format!(in alloc;
            "error: invalid value '{text}' for '--table-dump <RULE>': neither aside nor read\n"
        )?)),
    }
}

/// Returns what is done about damage.
fn errors_of(alloc: Global, matches: &ArgMatches<'_>) -> Result<ErrorRule, Usage>
    ensures { IfErr result IsRefusal }
{
    match matches.get_str("errors").unwrap_or("skip") {
        "skip" => Ok(ErrorRule::Skip),
        "rfc7606" => Ok(ErrorRule::Internal),
        text => Err(Usage::Words(format!(in alloc;
            "error: invalid value '{text}' for '--errors <RULE>': neither skip nor rfc7606\n"
        )?)),
    }
}

/// Returns the further attributes of routes that are asked for, those among them that the chosen routes need.
fn attributes_of(
    alloc: Global,
    routes: &ChosenRoutes,
    matches: &ArgMatches<'_>,
) -> Result<AttributeSet, Usage>
    ensures { IfErr result IsRefusal }
{
    let mut asked = routes.attributes();
    if let Some(lists) = matches.get_strs("attributes") {
        for list in lists {
            match add_attributes(asked, list) {
                Ok(more) => asked = more,
                Err(name) => {
                    let names = attribute_names(alloc)?;
                    return Err(Usage::Words(format!(in alloc;
                        "error: invalid value '{list}' for '--attributes <LIST>': '{name}' is no attribute\n  they are {names}, or all; more than one are joined by commas\n"
                    )?));
                }
            }
        }
    }
    Ok(asked)
}

/// Returns the form of lines.
fn format_of(alloc: Global, matches: &ArgMatches<'_>) -> Result<Format, Usage>
    ensures { IfErr result IsRefusal }
{
    match matches.get_str("format").unwrap_or("text") {
        "text" => Ok(Format::Text),
        "json" => Ok(Format::Json),
        text => Err(Usage::Words(format!(in alloc;
            "error: invalid value '{text}' for '--format <FORM>': neither text nor json\n"
        )?)),
    }
}

/// Returns the form of IPv6 addresses: in JSON, and those of IPv6 routes, are short (RFC 5952).
fn address_form_of(
    alloc: Global,
    format: Format,
    matches: &ArgMatches<'_>,
) -> Result<AddressForm, Usage>
    ensures { IfErr result IsRefusal }
{
    let form = match matches.get_str("addresses").unwrap_or("full") {
        "full" => AddressForm::Full,
        "short" => AddressForm::Short,
        text => {
            return Err(Usage::Words(format!(in alloc;
                "error: invalid value '{text}' for '--addresses <FORM>': neither full nor short\n"
            )?));
        }
    };
    match format {
        Format::Text => Ok(form),
        Format::Json => Ok(AddressForm::Short),
    }
}

/// Returns how the lines of a report are written: the addresses of IPv6 routes are short (RFC 5952).
fn layout_of<F: AddressText>(
    alloc: Global,
    routes: &ChosenRoutes,
    matches: &ArgMatches<'_>,
) -> Result<LayoutOf<F>, Usage>
    ensures { IfErr result IsRefusal }
{
    let format = format_of(alloc, matches)?;
    let form = address_form_of(alloc, format, matches)?;
    Ok(Layout {
        format,
        peer_addresses: form,
        route_addresses: match F::FAMILY {
            AddressFamily::Ipv4 => form,
            AddressFamily::Ipv6 => AddressForm::Short,
        },
        family: FamilyMark::new(),
        attributes: attributes_of(alloc, routes, matches)?,
    })
}

/// Refuses a text that is no prefix.
fn no_choice<F: AddressText>(alloc: Global, text: &str) -> Result<Usage, AllocError>
    ensures { IfOk result IsRefusal }
{
    let fault = fault_of_reach::<F>(text.as_bytes());
    let example = F::WORDS.example;
    let hint = hint_of_reach::<F>(alloc, text.as_bytes())?;
    Ok(Usage::Words(format!(in alloc;
        "error: invalid value '{text}' for '--prefix <PREFIX>': {fault}\n  it may be {example}, {example}+ (more specifics too), {example}- (less specifics too) or an address\n{hint}"
    )?))
}

/// Returns the prefixes that are chosen.
fn prefixes_of<F: AddressText>(
    alloc: Global,
    matches: &ArgMatches<'_>,
) -> Result<Vec<PrefixChoice<Prefix<F>>>, Usage>
    ensures { IfErr result IsRefusal }
{
    let mut choices = Vec::new(alloc);
    if let Some(texts) = matches.get_strs("prefix") {
        for text in texts {
            match read_choice::<F>(text) {
                Some(choice) => choices.push(choice)?,
                None => return Err(no_choice::<F>(alloc, text)?),
            }
        }
    }
    Ok(choices)
}

/// Returns the texts that are given for an argument, in order.
fn texts_of(alloc: Global, name: &str, matches: &ArgMatches<'_>) -> Result<Vec<String>, Usage>
    ensures { IfErr result IsRefusal }
{
    let mut texts = Vec::new(alloc);
    if let Some(given) = matches.get_strs(name) {
        for text in given {
            texts.push(String::from_str(alloc, text)?)?;
        }
    }
    Ok(texts)
}

/// Whether standard input is one of these files.
fn has_standard_input(names: &[String]) -> bool {
    for name in names {
        if name.as_str() == "-" {
            return true;
        }
    }
    false
}

/// Why standard input can't be all that these files say it is, if it can't: lists of prefixes, lists of files' names,
/// and dumps.
pub fn standard_input_fault(
    lists: &[String],
    file_lists: &[String],
    files: &[String],
) -> Option<&'static str> {
    let names_prefixes = has_standard_input(lists);
    let names_files = has_standard_input(file_lists);
    let is_dump = has_standard_input(files);
    if names_prefixes && is_dump {
        Some("error: standard input can't be both the prefixes and a dump\n")
    } else if names_files && is_dump {
        Some("error: standard input can't be both the names of files and a dump\n")
    } else if names_files && names_prefixes {
        Some("error: standard input can't be both the names of files and the prefixes\n")
    } else {
        None
    }
}

/// Returns the peers that are chosen.
fn peers_of(alloc: Global, matches: &ArgMatches<'_>) -> Result<Vec<PeerChoice>, Usage>
    ensures { IfErr result IsRefusal }
{
    let mut choices = Vec::new(alloc);
    if let Some(texts) = matches.get_strs("peer") {
        for text in texts {
            match read_peer(text) {
                Some(choice) => choices.push(choice)?,
                None => {
                    return Err(Usage::Words(format!(in alloc;
                        "error: invalid value '{text}' for '--peer <PEER>': not an AS number, alone or with an address\n  it may be 65001, 65001,192.0.2.1, '65001 192.0.2.1' or 65001,2001:db8::1\n"
                    )?));
                }
            }
        }
    }
    Ok(choices)
}

/// Returns the share of the peers that is chosen.
fn share_of(alloc: Global, matches: &ArgMatches<'_>) -> Result<Option<Share>, Usage>
    ensures { IfErr result IsRefusal }
{
    let Some(text) = matches.get_str("peers") else {
        return Ok(None);
    };
    match read_share(text) {
        Some(share) => Ok(Some(share)),
        None => Err(Usage::Words(format!(in alloc;
            "error: invalid value '{text}' for '--peers <I/N>': not I/N with 1 <= I <= N <= 65536\n"
        )?)),
    }
}

/// Returns the origin ASes that are chosen, `None` for routes that have none.
fn origins_of(alloc: Global, matches: &ArgMatches<'_>) -> Result<Vec<Option<u32>>, Usage>
    ensures { IfErr result IsRefusal }
{
    let mut origins = Vec::new(alloc);
    if let Some(texts) = matches.get_strs("origin") {
        for text in texts {
            match read_origin(text) {
                Some(origin) => origins.push(origin)?,
                None => {
                    return Err(Usage::Words(format!(in alloc;
                        "error: invalid value '{text}' for '--origin <AS>': neither an AS number nor -\n  it may be 65001, or - for routes that have no origin AS\n"
                    )?));
                }
            }
        }
    }
    Ok(origins)
}

/// Refuses a text that is no mask, unless an allocation failed.
fn no_mask(alloc: Global, text: &str, error: MaskError) -> Result<Usage, AllocError>
    ensures { IfOk result IsRefusal }
{
    let Some(fault) = fault_of_mask(error) else {
        return Ok(Usage::Memory);
    };
    Ok(Usage::Words(format!(in alloc;
        "error: invalid value '{text}' for '--path <MASK>': {fault}\n  it may be '* 64496', '64496 *', '* 64496..64511 ? *' or '[= 64496 * =]': words with blanks between, for the whole path\n"
    )?))
}

/// Returns the masks of which a chosen route's path matches one.
fn paths_of(alloc: Global, matches: &ArgMatches<'_>) -> Result<Vec<PathMask>, Usage>
    ensures { IfErr result IsRefusal }
{
    let mut masks = Vec::new(alloc);
    if let Some(texts) = matches.get_strs("path") {
        for text in texts {
            match read_mask(alloc, text) {
                Ok(mask) => masks.push(mask)?,
                Err(error) => return Err(no_mask(alloc, text, error)?),
            }
        }
    }
    Ok(masks)
}

/// Returns the patterns of which one matches a community of a chosen route.
fn communities_of(alloc: Global, matches: &ArgMatches<'_>) -> Result<Vec<CommunityPattern>, Usage>
    ensures { IfErr result IsRefusal }
{
    let mut patterns = Vec::new(alloc);
    if let Some(texts) = matches.get_strs("community") {
        for text in texts {
            match read_community(text) {
                Some(pattern) => patterns.push(pattern)?,
                None => {
                    return Err(Usage::Words(format!(in alloc;
                        "error: invalid value '{text}' for '--community <C>': neither a community, nor a large nor an extended one\n  it may be 65000:666, 65000:1:2, rt:65000:1, ro:192.0.2.1:1, or 0x and sixteen digits in lower case; each part may be *\n"
                    )?));
                }
            }
        }
    }
    Ok(patterns)
}

/// Returns the routes that are chosen.
fn routes_of(alloc: Global, matches: &ArgMatches<'_>) -> Result<ChosenRoutes, Usage>
    ensures { IfErr result IsRefusal }
{
    let origins = origins_of(alloc, matches)?;
    let paths = paths_of(alloc, matches)?;
    let communities = communities_of(alloc, matches)?;
    Ok(ChosenRoutes::new(origins, paths, communities))
}

/// Returns the job on the routes of a family.
fn job_of<F: AddressText>(
    alloc: Global,
    name: &str,
    matches: &ArgMatches<'_>,
) -> Result<Job<F>, Usage>
    ensures { IfErr result IsRefusal }
{
    let request = request_of::<F>(alloc, name, matches)?;
    let routes = routes_of(alloc, matches)?;
    let layout = layout_of::<F>(alloc, &routes, matches)?;
    let until = second_of(alloc, "until", matches)?;
    if is_never(&request, until) {
        return Err(refused(alloc, "error: --since is after --until\n")?);
    }
    let DumpRules {
        states,
        state_peers,
        ribs,
    } = dump_rules_of(alloc, matches)?;
    let table_dumps = table_dumps_of(alloc, matches)?;
    let errors = errors_of(alloc, matches)?;
    let prefixes = prefixes_of::<F>(alloc, matches)?;
    let lists = texts_of(alloc, "prefixes", matches)?;
    let peers = peers_of(alloc, matches)?;
    let share = share_of(alloc, matches)?;
    let files = texts_of(alloc, "file", matches)?;
    let file_lists = texts_of(alloc, "files-from", matches)?;
    let given = matches.get_one::<usize>("workers");
    let workers = given.unwrap_or(WORKERS_DEFAULT);
    let ring = matches.get_one::<usize>("ring").unwrap_or(RING_DEFAULT);
    if !(1..=64).contains(&workers) {
        return Err(refused(alloc, "error: --workers is not in 1..=64\n")?);
    }
    if !(1..=65_536).contains(&ring) {
        return Err(refused(alloc, "error: --ring is not in 1..=65536\n")?);
    }
    if files.is_empty() && file_lists.is_empty() {
        return Err(refused(alloc, "error: no file\n")?);
    }
    if let Some(text) = standard_input_fault(&lists, &file_lists, &files) {
        return Err(refused(alloc, text)?);
    }
    Ok(Job {
        request,
        layout,
        workers,
        has_workers: given.is_some(),
        ring,
        until,
        states,
        state_peers,
        ribs,
        table_dumps,
        errors,
        prefixes,
        lists,
        peers,
        share,
        routes,
        header: matches.get_flag("header"),
        summary: matches.get_flag("summary"),
        progress: matches.get_flag("progress"),
        quiet: matches.get_flag("quiet"),
        files,
        file_lists,
    })
}

/// Returns what is printed in place of a report, as the parser found it.
fn text_of(alloc: Global, error: &Error, words: &[String]) -> Result<String, AllocError> {
    match error.kind() {
        ErrorKind::DisplayVersion => version_text(alloc),
        ErrorKind::UnknownArgument => {
            let text = error.to_string(alloc)?;
            refusal_of(alloc, text.as_str(), words)
        }
        _ => error.to_string(alloc),
    }
}

/// Converts a refused parse, or one that asks for help, for the caller.
fn usage_of(alloc: Global, error: &Error, words: &[String]) -> Usage
    ensures { IsRefusal result }
{
    if error.kind() == ErrorKind::OutOfMemory {
        return Usage::Memory;
    }
    match text_of(alloc, error, words) {
        Ok(text) if error.use_stderr() => Usage::Words(text),
        Ok(text) => Usage::Help(text),
        Err(_) => Usage::Memory,
    }
}

/// Whether a word names a list of files, so that no file need be named beside it.
fn has_file_list(words: &[String]) -> bool {
    for word in words {
        if word.as_str().starts_with("--files-from") {
            return true;
        }
    }
    false
}

/// Returns the job that the arguments after the program's name ask for. A refused parse is reported before
/// the family and the address are examined.
pub fn read_words(alloc: Global, words: &[String]) -> Result<Asked, Usage>
    ensures { IfErr result IsRefusal }
{
    let closings = closings(alloc)?;
    let command = command(alloc, closings.as_slice(), !has_file_list(words))?;
    let matches = match command.try_get_matches_from(words) {
        Ok(matches) => matches,
        Err(error) => return Err(usage_of(alloc, &error, words)),
    };
    match matches.subcommand() {
        Some((name, below)) => match family_of(alloc, below)? {
            AddressFamily::Ipv4 => Ok(Asked::Ipv4(job_of::<u32>(alloc, name, below)?)),
            AddressFamily::Ipv6 => Ok(Asked::Ipv6(job_of::<Ipv6>(alloc, name, below)?)),
        },
        None => Err(refused(alloc, "error: no command\n")?),
    }
}
