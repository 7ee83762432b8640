//! Does the rows of the files in `data`, and tells which came out otherwise than wanted.
#![tactic(auto)]

mod reader;
mod run;

use reader::ReaderRows;
use run::RunRows;
use std::fs;
use std::process::ExitCode;
use wac_bytes_rows::ByteRows;
use wac_graph_rows::{EncodeRows, GraphRows, TypeRows};
use wac_parser_rows::{ParserRows, ResolveRows};
use wac_rows::{Row, RowTeller, Told, report};

/// What the rows of each file are about.
const SUBJECTS: [&str; 8] = [
    "reader", "bytes", "types", "graph", "encode", "parser", "resolve", "run",
];

/// Does the rows that are about a subject.
#[derive(Clone, Copy)]
struct AllRows<'a> {
    subject: &'a str,
}

impl RowTeller for AllRows<'_> {
    fn tell(&self, told: &mut Told, row: &Row<'_>) {
        match self.subject {
            "reader" => ReaderRows.tell(told, row),
            "bytes" => ByteRows.tell(told, row),
            "types" => TypeRows.tell(told, row),
            "graph" => GraphRows.tell(told, row),
            "encode" => EncodeRows.tell(told, row),
            "parser" => ParserRows.tell(told, row),
            "resolve" => ResolveRows.tell(told, row),
            "run" => RunRows.tell(told, row),
            _ => told.push("no such rows"),
        }
    }
}

/// Tells of a file's text which rows came out otherwise than wanted.
fn tell_file(told: &mut Told, subject: &str, text: &str) {
    let is_right = report(&AllRows { subject }, told, text);
    told.push(subject);
    told.push(if is_right {
        ": as wanted\n"
    } else {
        ": otherwise\n"
    });
}

/// Tells of the rows that are about a subject which came out otherwise than wanted.
fn tell_subject(rt: &HostRuntime, told: &mut Told, subject: &str) {
    let mut path = Told::new(rt.alloc());
    path.push(subject);
    path.push(".txt");
    match fs::read_to_string(rt, path.text()) {
        Ok(text) => tell_file(told, subject, text.as_str()),
        Err(_) => {
            told.push(subject);
            told.push(": no such file\n");
        }
    }
}

fn main(rt: HostRuntime) -> ExitCode {
    let mut told = Told::new(rt.alloc());
    for subject in SUBJECTS {
        tell_subject(&rt, &mut told, subject);
    }
    match println!(rt; "{}", told.text()) {
        Ok(()) => ExitCode::SUCCESS,
        Err(_) => ExitCode::FAILURE,
    }
}
