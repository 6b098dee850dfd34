//! Readers and writers for tests, which fail where they are told to, and what became of a subcommand over them, or of a conference.
//!
//! Only tests of `confer` and of its subcommands stand on it.
#![tactic(auto)]

use std::alloc::Global;
use std::fmt::Display;
use std::io;
use std::io::{ErrorKind, Read, Write};

/// Gives its text `most` bytes at a time; the read after `good` of them is a fault.
#[derive(Drop)]
pub struct Source<'a> {
    pub text: &'a [u8],
    pub most: usize,
    pub good: usize,
    pub fault: ErrorKind,
}

impl<'a> Read for Source<'a> {
    fn read(&mut self, buf: &mut [u8]) -> io::Result<usize> {
        let Some(left) = self.good.checked_sub(1) else {
            return Err(io::Error::from(self.fault));
        };
        self.good = left;
        let count = self.text.len().min(buf.len()).min(self.most);
        buf[..count].copy_from_slice(&self.text[..count]);
        self.text = &self.text[count..];
        Ok(count)
    }
}

pub fn reading(text: &[u8]) -> Source<'_> {
    Source {
        text,
        most: 5,
        good: usize::MAX,
        fault: ErrorKind::BrokenPipe,
    }
}

/// Keeps what it is given, `most` bytes at a time. The first `interrupted` writes are interrupted, and the
/// write after `good` others is a fault.
#[derive(Drop)]
pub struct Sink {
    pub text: Vec<u8>,
    pub most: usize,
    pub interrupted: usize,
    pub good: usize,
}

impl Write for Sink {
    fn write(&mut self, buf: &[u8]) -> io::Result<usize> {
        if let Some(left) = self.interrupted.checked_sub(1) {
            self.interrupted = left;
            return Err(io::Error::from(ErrorKind::Interrupted));
        }
        let Some(left) = self.good.checked_sub(1) else {
            return Err(io::Error::from(ErrorKind::BrokenPipe));
        };
        self.good = left;
        let count = buf.len().min(self.most);
        self.text.extend_from_slice(&buf[..count])?;
        Ok(count)
    }

    fn flush(&mut self) -> io::Result<()> {
        Ok(())
    }
}

pub fn writing(alloc: Global) -> Sink {
    Sink {
        text: Vec::new(alloc),
        most: 3,
        interrupted: 0,
        good: usize::MAX,
    }
}

/// So many bytes, with a line feed at the front of each read.
#[derive(Drop)]
pub struct Bulk {
    pub left: usize,
}

impl Read for Bulk {
    fn read(&mut self, buf: &mut [u8]) -> io::Result<usize> {
        if let Some(first) = buf.first_mut() {
            *first = b'\n';
        }
        let count = self.left.min(buf.len());
        self.left = self.left.saturating_sub(count);
        Ok(count)
    }
}

/// What became of a subcommand.
#[derive(Drop)]
pub struct Outcome<F: Drop> {
    /// Whether anything was refused, or the fault by which it stopped.
    pub ended: Result<bool, F>,
    pub printed: Vec<u8>,
}

impl<F: Display + Drop> Outcome<F> {
    /// Whether it ended so, a fault with this text, and printed just these bytes.
    pub fn is(&self, alloc: Global, ended: Result<bool, &str>, printed: &[u8]) -> bool {
        self.printed.as_slice() == printed && self.has_ended(alloc, ended)
    }

    fn has_ended(&self, alloc: Global, ended: Result<bool, &str>) -> bool {
        match (&self.ended, ended) {
            (Ok(refused), Ok(wanted)) => *refused == wanted,
            (Err(fault), Err(wanted)) => has_text(alloc, fault, wanted),
            _ => false,
        }
    }
}

fn has_text<F: Display>(alloc: Global, fault: &F, wanted: &str) -> bool {
    match format!(in alloc; "{fault}") {
        Ok(text) => text.as_str() == wanted,
        Err(_) => false,
    }
}

/// Whether the text is the report of a conference in which each of so many members did this part, counted in casts and deliveries, and saw
/// no answer before its question, and of which the audit says yes.
pub fn is_report(alloc: Global, text: &str, members: usize, part: &str) -> bool {
    text.ends_with("\naudit yes\n")
        && text.lines().count() == members.saturating_add(1)
        && (0..members).all(|member| is_line(alloc, line_at(text, member), member, part))
}

fn line_at(text: &str, place: usize) -> &str {
    text.lines().nth(place).unwrap_or("")
}

fn is_line(alloc: Global, line: &str, member: usize, part: &str) -> bool {
    match format!(in alloc; "member {member} {part} entries ") {
        Ok(start) => line.starts_with(start.as_str()) && line.ends_with(" orphans 0"),
        Err(_) => false,
    }
}
