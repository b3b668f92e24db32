//! What the command line asks for, and the names that the program uses for files and records in messages.
//!
//! `read_words` makes a `Job` of the arguments, by the kit's `clap`; its invariants are the ranges of workers and ring,
//! and that there is a file or a list of files. `read_address` and `read_choice` are exact in both directions, as is
//! what is reported as a bad address. What else the arguments mean is tested (`tests/rows`, `tests/program.sh`), and
//! not stated.
//!
//! - Options, commands and columns stand in the tables of `options`, and what they say in words is made from these:
//!   help here; manual page, README, usage page and completions by `tools/options.py`. A new option is a row there, and
//!   its reading.
//! - `clap` doesn't break lines: `wrapped` breaks those of a help, at the width that the program gives it.
//! - `--version` has a second line, which stands in the program as 128 bytes, `@build:`, 120 bytes and `@`. They are
//!   read character by character when the line is asked for, so that a build can replace them in the program that it
//!   built.
//! - It is a library, since a function of the program can't be called by a test. `Request` is in `report_request`,
//!   since this crate and `rib_report` need it and neither needs the other.
//! - `--workers` defaults to one worker per processor, which arguments alone don't know: `read_words` returns 4 and
//!   whether the arguments said so.
//! - `--until` takes seconds, a date, or RFC 3339, which `jiff` parses. A date and time without an offset from UTC is
//!   bad.
//! - `--prefix` takes a prefix, alone or with `+` (itself and more specifics) or `-` (itself and what contains it); an
//!   address alone is the prefix of full length. Bits past the length are refused: they are mostly a typing error. Each
//!   `--prefix` adds to the others, while of other options the last one counts.
//! - `--family` says which unicast routes are replayed, so a job is one of two types, `Job<u32>` and `Job<Ipv6>`, and
//!   what reads it is generic over the address. A family's addresses are read through `AddressText`, on `u32` and
//!   `Ipv6`, and its prefixes by `read_prefix` and `read_reach`; `AddressFamily` is the value that says which family an
//!   address is of. No IPv6 address is read with a zone or a dotted tail.
//! - `--prefixes` takes files with a prefix in each line. `read_list` reads such a text and is exact in both
//!   directions; a job has the files' names, which the program opens and reads.
//! - `--files-from` takes files that name dumps. `read_file_list` reads such a text; the program opens and reads it, as
//!   it does those of `--prefixes`. A file need not be named beside it, so a word that begins so is looked for before
//!   the parser is made.
//! - Of a word that is no option, `clap` says how to pass it as a file. The refusal says so only where the word may
//!   be one.
//! - `--peer` and `--peers` choose peers by AS number and address, and a share of the peers. Their readers are tested.
//! - `--origin`, `--path` and `--community` choose routes: a job has a `ChosenRoutes`, whose masks and patterns
//!   `route_choice` reads. The attributes that its patterns are about are asked for as if `--attributes` named them.
//! - `--written-by` stands for the rules that fit a daemon's dumps, where no other option names them: `DumpRules::by`
//!   is proved, and no one above knows of it. `clap` fills in defaults, so what the arguments give is asked by source.
//! - `Records` counts records by their headers for `--summary`, through the bytes that the replay reads, and nothing in
//!   the replay depends on it.
//! - `Kind` is what a file's first eight bytes look like. Such a file is still cut as a dump, since nothing in a dump
//!   says that it is one.
#![tactic(auto)]

mod address;
mod address_family;
mod address_text;
mod attributes;
mod build;
mod choice;
mod commands;
mod file_list;
mod ipv6;
mod kind;
mod laws;
mod list;
mod moment;
mod mrt_names;
mod names;
mod options;
mod peers;
mod records;
mod refusal;
mod routes;
mod words;
mod wrap;
mod written_by;

pub use address::read_address;
pub use address_family::AddressFamily;
pub use address_text::{AddressText, PrefixWords, hint_of_address};
pub use choice::{fault_of_reach, read_choice, read_prefix, read_reach};
pub use file_list::{FileListError, fault_of_file_list, read_file_list};
pub use kind::{FirstBytes, Kind};
pub use laws::{one_prefix_to_a_text, written_prefixes_spell_themselves};
pub use list::{ListError, fault_of_list, read_list};
pub use moment::read_second;
pub use mrt_names::RecordKind;
pub use names::FileName;
pub use peers::{read_peer, read_share};
pub use records::{Aside, Records};
pub use routes::read_origin;
pub use words::{Asked, Job, Usage, read_words, standard_input_fault};
pub use wrap::{read_width, wrapped};
pub use written_by::{Daemon, DumpRules, NamedRules};
