//! The report of a round as JSON, object by object.

ghost use Rattle.std.specs.Prelude.{◌≡◌, ◌++◌, ◌∷◌, [], codes, decimal, map, string_bytes, IfOk, OnOk};
ghost use Rattle.serde_json.specs.Data.{array};
ghost use Rattle.serde_json.specs.View.{items_of, view};
ghost use Rattle.pls_json.specs.Json.{json_text, node_text, component_text, components_text, with_commas};
ghost use Rattle.pls_json.specs.inner.Values.{after_others, comma_before, node_data, number_data};

use pls_configuration::Verdict;
use pls_report::{ComponentRow, rejecting, waiting};
use pls_sim::Outcome;
use pls_streams::NoMemory;
use serde_json::{Value, json};
use std::alloc::{AllocError, Global};
use std::fmt::Write;

/// The report of nodes, each with its identity and its outcome, as one compact line of JSON
/// (RFC 8259) and a line feed: an object with the components (`parts`) in their order, where there
/// are two or more, the nodes in theirs, how many reject and how many wait, its keys in the order
/// of the alphabet. The value of a node goes as soon as its text is there. The one error is want of
/// memory.
pub fn json_report(
    alloc: Global,
    rows: &[(u32, Outcome)],
    parts: &[ComponentRow],
) -> Result<String, NoMemory>
    ensures { IfOk result (λ text. string_bytes text ≡ json_text parts.now rows.now) }
{
    let mut text = String::new(alloc);
    text.push_str("{")?;
    push_components(&mut text, parts)?;
    text.push_str("\"nodes\":[")?;
    push_nodes(alloc, &mut text, rows)?;
    push_counts(&mut text, rejecting(rows), waiting(rows))?;
    Ok(text)
}

// Also closes the object.
fn push_counts(text: &mut String, rejecting: usize, waiting: usize) -> Result<(), NoMemory>
    ensures { OnOk result (string_bytes text.new ≡ string_bytes text.old
        ++ (codes "],\"rejecting\":" ++ (decimal rejecting ++ (codes ",\"waiting\":"
        ++ (decimal waiting ++ (125 ∷ 10 ∷ [])))))) }
{
    write!(text, "],\"rejecting\":{rejecting},\"waiting\":{waiting}")?;
    text.push_str("}\n")?;
    Ok(())
}

fn push_nodes(alloc: Global, text: &mut String, rows: &[(u32, Outcome)]) -> Result<(), NoMemory>
    ensures { OnOk result (string_bytes text.new
        ≡ string_bytes text.old ++ with_commas (map node_text rows.now)) }
{
    for (i, row) in rows.iter().enumerate() {
        push_node(alloc, text, i == 0, row)?;
    }
    Ok(())
}

fn push_node(
    alloc: Global,
    text: &mut String,
    first: bool,
    row: &(u32, Outcome),
) -> Result<(), NoMemory>
    ensures { OnOk result (string_bytes text.new
        ≡ string_bytes text.old ++ after_others first (node_text row.now)) }
{
    let object = node_object(alloc, row)?;
    push_behind(text, first, &object)
}

// Adds nothing for fewer than two components.
fn push_components(text: &mut String, parts: &[ComponentRow]) -> Result<(), NoMemory>
    ensures { OnOk result
        (string_bytes text.new ≡ string_bytes text.old ++ components_text parts.now) }
{
    if parts.len() < 2 {
        return Ok(());
    }
    text.push_str("\"components\":[")?;
    push_each_component(text, parts)?;
    text.push_str("],")?;
    Ok(())
}

fn push_each_component(text: &mut String, parts: &[ComponentRow]) -> Result<(), NoMemory>
    ensures { OnOk result (string_bytes text.new
        ≡ string_bytes text.old ++ with_commas (map component_text parts.now)) }
{
    for (i, part) in parts.iter().enumerate() {
        push_component(text, i == 0, *part)?;
    }
    Ok(())
}

// Makes no `Value`, since there may be as many components as nodes.
fn push_component(text: &mut String, first: bool, part: ComponentRow) -> Result<(), NoMemory>
    ensures { OnOk result (string_bytes text.new
        ≡ string_bytes text.old ++ after_others first (component_text part)) }
{
    let ComponentRow {
        id,
        nodes,
        rejecting,
        waiting,
    } = part;
    push_comma(text, first)?;
    text.push_str("{\"id\":")?;
    write!(
        text,
        "{id},\"nodes\":{nodes},\"rejecting\":{rejecting},\"waiting\":{waiting}"
    )?;
    text.push_str("}")?;
    Ok(())
}

// Adds `object`, after a comma unless it is the first.
fn push_behind(text: &mut String, first: bool, object: &str) -> Result<(), NoMemory>
    ensures { OnOk result (string_bytes text.new
        ≡ string_bytes text.old ++ after_others first object.now) }
{
    push_comma(text, first)?;
    text.push_str(object)?;
    Ok(())
}

fn push_comma(text: &mut String, first: bool) -> Result<(), NoMemory>
    ensures { OnOk result (string_bytes text.new ≡ string_bytes text.old ++ comma_before first) }
{
    if !first {
        text.push_str(",")?;
    }
    Ok(())
}

fn node_object(alloc: Global, row: &(u32, Outcome)) -> Result<String, NoMemory>
    ensures { IfOk result (λ text. string_bytes text ≡ node_text row.now) }
{
    let text = node_value(alloc, row.0, &row.1)?.to_string(alloc)?;
    Ok(text)
}

fn node_value(alloc: Global, id: u32, outcome: &Outcome) -> Result<Value, AllocError>
    ensures { IfOk result (λ value. view value ≡ node_data (id, outcome.now)) }
{
    match outcome {
        Outcome::Decided(Verdict::Accept) => json!(in alloc; {"id": id, "verdict": "accept"}),
        Outcome::Decided(Verdict::Reject { leaf, rule }) => {
            json!(in alloc; {"id": id, "leaf": *leaf, "rule": *rule, "verdict": "reject"})
        }
        Outcome::Waiting(ports) => {
            let ports = ports_value(alloc, ports.as_slice())?;
            json!(in alloc; {"id": id, "ports": ports, "verdict": "waiting"})
        }
    }
}

fn ports_value(alloc: Global, ports: &[u32]) -> Result<Value, AllocError>
    ensures { IfOk result (λ value. view value ≡ array (items_of (map number_data ports.now))) }
{
    let mut values = Vec::new(alloc);
    for port in ports {
        values.push(Value::from(*port))?;
    }
    Ok(Value::Array(values))
}
