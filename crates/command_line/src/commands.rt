//! The program's command line, made from the tables of options and commands.

use crate::options::{COMMANDS, ColumnRow, CommandRow, OPTIONS, OptionRow, Takes};
use clap::{Arg, ArgAction, Command, value_parser};
use std::alloc::{AllocError, Global};

static VERSION: &str = "0.3.0";

static ABOUT: &str =
    "Replays MRT route-collector dumps into one routing table (Adj-RIB-In) per BGP peer, and prints a report.

A run reads the unicast routes of one family: those of IPv4, or, with --family ipv6, those of IPv6. Communities are read with --attributes or --community alone, and TABLE_DUMP records with --table-dump read. Multicast and VPN routes and BMP aren't read.";

static AFTER: &str = "Examples:
  bgp_replay tables rib.mrt updates.mrt
  bgp_replay visibility --prefix 192.0.2.0/24+ rib.mrt
  bgp_replay origins rib.mrt
  bgp_replay churn --until 2024-01-01T01:00:00Z updates.mrt
  bgp_replay match --address 192.0.2.1 rib.mrt
  bgp_replay churn rib.bz2 updates.gz

Each command's help says what its columns are: bgp_replay tables --help

Status:
  0  the dumps are whole
  1  damaged records, messages and entries were left out; of a file that ends early or has a record that is too long, also what stands behind; standard error says `damaged: N`, and `faults` lists them
  2  bad arguments
  3  a file could not be opened or read, the report could not be written, memory ran out, or there were too many records; standard error says which, and why";

/// Returns the version of the program.
pub fn version() -> &'static str {
    VERSION
}

/// The width of a column's name in a help.
const NAME_WIDTH: usize = 12;

/// Appends a name and blanks up to the column behind it.
fn push_name(text: &mut String, name: &str) -> Result<(), AllocError> {
    text.push_str("  ")?;
    text.push_str(name)?;
    for _ in name.len()..NAME_WIDTH {
        text.push(' ')?;
    }
    Ok(())
}

/// Returns what the help of a command says after the options.
fn closing_of(alloc: Global, row: &CommandRow) -> Result<String, AllocError> {
    let mut text = String::new(alloc);
    text.push_str("Columns, split by '|'; '-' stands for what isn't there:\n")?;
    for column in row.columns {
        let ColumnRow(name, meaning) = *column;
        push_name(&mut text, name)?;
        text.push_str(meaning)?;
        text.push('\n')?;
    }
    text.push_str(row.order)?;
    text.push_str("\n\nExamples:")?;
    for example in row.examples {
        text.push_str("\n  bgp_replay ")?;
        text.push_str(example)?;
    }
    Ok(text)
}

/// Returns what the help of each command says after the options.
pub fn closings(alloc: Global) -> Result<Vec<String>, AllocError> {
    let mut texts = Vec::new(alloc);
    for row in &COMMANDS {
        texts.push(closing_of(alloc, row)?)?;
    }
    Ok(texts)
}

/// An option with a value of its own.
fn valued<'a>(option: Arg<'a>, row: &OptionRow) -> Arg<'a> {
    let option = option.value_name(row.value).required(row.is_required);
    if row.default.is_empty() {
        option
    } else {
        option.default_value(row.default)
    }
}

fn option<'a>(alloc: Global, row: &OptionRow) -> Arg<'a> {
    let option = Arg::new(alloc, row.name).long(row.name).help(row.meaning);
    match row.takes {
        Takes::Nothing => option.action(ArgAction::SetTrue),
        Takes::Number(least, most) => {
            let numbers = value_parser!(usize).range(least..=most);
            valued(option, row)
                .value_parser(numbers)
                .allow_negative_numbers(true)
        }
        Takes::Text => valued(option, row).allow_negative_numbers(true),
        Takes::Texts => valued(option, row).action(ArgAction::Append),
    }
}

fn file_words<'a>(alloc: Global, is_required: bool) -> Arg<'a> {
    Arg::new(alloc, "file")
        .value_name("FILE")
        .num_args(1..)
        .required(is_required)
        .action(ArgAction::Append)
        .help(
            "MRT dumps, plain or packed by gzip or bzip2, replayed in this order; '-' is standard input",
        )
}

fn report_command<'a>(
    alloc: Global,
    row: &CommandRow,
    closing: &'a str,
    needs_file: bool,
) -> Result<Command<'a>, AllocError> {
    let mut report = Command::new(alloc, row.name)
        .about(row.meaning)
        .after_help(closing)
        .args_override_self(true);
    for option_row in &OPTIONS {
        if option_row.is_of(row.name) {
            report = report.arg(option(alloc, option_row))?;
        }
    }
    report.arg(file_words(alloc, needs_file))
}

/// Returns the command line of the program. A file need not be named where a list of files is.
pub fn command<'a>(
    alloc: Global,
    closings: &'a [String],
    needs_file: bool,
) -> Result<Command<'a>, AllocError> {
    let mut whole = Command::new(alloc, "bgp_replay")
        .bin_name("bgp_replay")?
        .version(VERSION)
        .about(ABOUT)
        .after_help(AFTER)
        .no_binary_name(true)
        .propagate_version(true)
        .subcommand_required(true)
        .arg_required_else_help(true);
    for (row, closing) in COMMANDS.iter().zip(closings) {
        let report = report_command(alloc, row, closing.as_str(), needs_file)?;
        whole = whole.subcommand(report)?;
    }
    Ok(whole)
}
