//! Tests of bits, networks, components, texts, views and rechecks.

mod base;
mod bits;
mod codes;
mod components;
mod edits;
mod graph;
mod labelfile;
mod lines;
mod netfile;
mod plain;
mod rechecks;
mod views;
mod ways;

use pls_graph::Network;
use pls_netfile::read_network;
use pls_streams::TextError;
use std::alloc::Global;
use std::test::Fail;

fn network(alloc: Global, text: &str) -> Result<Network, Fail> {
    match read_network(alloc, text.as_bytes()) {
        Ok(net) => Ok(net),
        Err(_) => Err(Fail::from("refused")),
    }
}

// 0 unless the text is refused for its form.
fn line_of<T>(read: &Result<T, TextError>) -> u64 {
    match read {
        Err(TextError::Form(line)) => *line,
        _ => 0,
    }
}
