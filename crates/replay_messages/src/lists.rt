//! The files that choose prefixes, and those that name dumps.

use crate::telling::{tell_list, tell_memory};
use bgp_prefix::Prefix;
use command_line::{
    AddressText, FileListError, FileName, ListError, fault_of_file_list, fault_of_list,
    read_file_list, read_list,
};
use peer_units::PrefixChoice;
use std::alloc::AllocError;
use std::io::{self, ErrorKind, Read};

/// The exit status for a file that chooses no prefixes, or names no dumps.
const REFUSED: u8 = 2;

/// The exit status if a file or memory failed.
const FAILED: u8 = 3;

/// What lists are of.
#[derive(Clone, Copy)]
enum Listed {
    Prefixes,
    Files,
}

impl Listed {
    /// The name of the option that names such lists, without its dashes.
    fn option(self) -> &'static str {
        match self {
            Listed::Prefixes => "prefixes",
            Listed::Files => "files-from",
        }
    }

    /// What one entry is.
    fn entry(self) -> &'static str {
        match self {
            Listed::Prefixes => "prefix",
            Listed::Files => "file",
        }
    }
}

/// Why a file wasn't read whole.
#[derive(Drop)]
enum Failure {
    Open(io::Error),
    Read(io::Error),
}

/// Returns the bytes of a file, or of standard input.
fn bytes_of(rt: &HostRuntime, name: &str) -> Result<Vec<u8>, Failure> {
    let mut bytes = Vec::new(rt.alloc());
    let read = if name == "-" {
        rt.stdin().read_to_end(&mut bytes)
    } else {
        match std::fs::open(rt, name) {
            Ok(mut file) => file.read_to_end(&mut bytes),
            Err(error) => return Err(Failure::Open(error)),
        }
    };
    match read {
        Ok(_) => Ok(bytes),
        Err(error) => Err(Failure::Read(error)),
    }
}

/// Reports that memory ran out, and returns the status.
fn without_memory(rt: &HostRuntime, listed: Listed) -> u8 {
    let during = match listed {
        Listed::Prefixes => "the prefixes were read",
        Listed::Files => "the names of files were read",
    };
    tell_memory(rt, during);
    FAILED
}

/// Reports why a file wasn't read whole, and returns the status.
fn explain(rt: &HostRuntime, listed: Listed, number: usize, name: &str, failure: &Failure) -> u8 {
    let option = listed.option();
    match failure {
        Failure::Read(error) if error.kind() == ErrorKind::OutOfMemory => {
            without_memory(rt, listed)
        }
        Failure::Open(error) => {
            tell_list(rt, "open", option, number, name, error);
            FAILED
        }
        Failure::Read(error) => {
            tell_list(rt, "read", option, number, name, error);
            FAILED
        }
    }
}

/// Reports what is wrong with a file's text, and returns the status.
fn explain_text(rt: &HostRuntime, listed: Listed, fault: Result<String, AllocError>) -> u8 {
    match fault {
        Ok(fault) => {
            let _ = eprint!(rt; "{fault}");
            REFUSED
        }
        Err(_) => without_memory(rt, listed),
    }
}

/// Reports that a file lists nothing, and returns the status.
fn explain_none(rt: &HostRuntime, listed: Listed, name: &str) -> u8 {
    let option = listed.option();
    let shown = FileName(name);
    let entry = listed.entry();
    let _ = eprintln!(rt; "error: '--{option} {shown}' names no {entry}");
    REFUSED
}

/// Returns the text of a list, or the status to exit with.
fn text_of(rt: &HostRuntime, listed: Listed, number: usize, name: &str) -> Result<Vec<u8>, u8> {
    match bytes_of(rt, name) {
        Ok(text) => Ok(text),
        Err(failure) => Err(explain(rt, listed, number, name, &failure)),
    }
}

/// Returns what the lines of a file choose, or the status to exit with.
fn choices_of<F: AddressText>(
    rt: &HostRuntime,
    number: usize,
    name: &str,
) -> Result<Vec<PrefixChoice<Prefix<F>>>, u8> {
    let listed = Listed::Prefixes;
    let text = text_of(rt, listed, number, name)?;
    match read_list::<F>(rt.alloc(), &text) {
        Ok(choices) if choices.is_empty() => Err(explain_none(rt, listed, name)),
        Ok(choices) => Ok(choices),
        Err(ListError::Line(line)) => {
            let fault = fault_of_list::<F>(rt.alloc(), name, &text, line);
            Err(explain_text(rt, listed, fault))
        }
        Err(ListError::Memory) => Err(without_memory(rt, listed)),
    }
}

/// Returns what the lines of these files choose, in order, or the status to exit with.
pub fn listed_prefixes<F: AddressText>(
    rt: &HostRuntime,
    names: &[String],
) -> Result<Vec<PrefixChoice<Prefix<F>>>, u8> {
    let mut choices = Vec::new(rt.alloc());
    for (i, name) in names.iter().enumerate() {
        let mut listed = choices_of::<F>(rt, i.saturating_add(1), name.as_str())?;
        if choices.append(&mut listed).is_err() {
            return Err(without_memory(rt, Listed::Prefixes));
        }
    }
    Ok(choices)
}

/// Returns the dumps that a file names, or the status to exit with.
fn dumps_of(rt: &HostRuntime, number: usize, name: &str) -> Result<Vec<String>, u8> {
    let listed = Listed::Files;
    let text = text_of(rt, listed, number, name)?;
    match read_file_list(rt.alloc(), &text) {
        Ok(names) if names.is_empty() => Err(explain_none(rt, listed, name)),
        Ok(names) => Ok(names),
        Err(FileListError::NotText(at)) => {
            let fault = fault_of_file_list(rt.alloc(), name, &text, at);
            Err(explain_text(rt, listed, fault))
        }
        Err(FileListError::Memory) => Err(without_memory(rt, listed)),
    }
}

/// Returns the dumps that these files name, in order, or the status to exit with.
pub fn listed_dumps(rt: &HostRuntime, names: &[String]) -> Result<Vec<String>, u8> {
    let mut dumps = Vec::new(rt.alloc());
    for (i, name) in names.iter().enumerate() {
        let mut listed = dumps_of(rt, i.saturating_add(1), name.as_str())?;
        if dumps.append(&mut listed).is_err() {
            return Err(without_memory(rt, Listed::Files));
        }
    }
    Ok(dumps)
}
