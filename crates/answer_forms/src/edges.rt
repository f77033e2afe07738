//! The edges of a graph.
ghost use Rattle.std.specs.Prelude.{◌≡◌, ◌++◌, ◌<◌, OnOk, map};
ghost use Rattle.std.specs.BTreeMap.{get};
ghost use Rattle.std.specs.Ordering.{nat_cmp};
ghost use Rattle.answer_forms.specs.Edges as spec;

use crate::graph_line::read_text;
use crate::graph_part::{Part, part_in};
use crate::tellers::tell;
use itoa::Buffer;
use std::alloc::{AllocError, Global};
use std::collections::BTreeMap;

/// Appends the edges of lines, of the last one first.
pub fn push_edges(alloc: Global, dot: &mut Vec<u8>, lines: &[&[u8]]) -> Result<(), AllocError>
    ensures { OnOk result (dot.new.items
        ≡ dot.old.items ++ spec.edges 0 (map (λ s. s.now) lines.now)) }
{
    let mut tellers = BTreeMap::new(alloc);
    for done in 0..lines.len() {
        let at = lines.len() - 1 - done;
        push_line_edges(dot, &tellers, at as u64, read_text(lines[at]))?;
        tell(&mut tellers, at as u64, lines[at])?;
    }
    Ok(())
}

/// Appends the edges of a line, from the names of what it read.
fn push_line_edges(
    dot: &mut Vec<u8>,
    tellers: &BTreeMap<u64, u64>,
    k: u64,
    text: &[u8],
) -> Result<(), AllocError>
    ensures { OnOk result (dot.new.items
        ≡ dot.old.items ++ spec.edges_in (get nat_cmp tellers.now) k text.now) }
{
    for at in 0..text.len() {
        push_edges_behind(dot, tellers, k, text[at], &text[at + 1..])?;
    }
    Ok(())
}

/// Appends the edges of the part with whose name a text begins, if it stands behind a blank.
#[tactic(auto, unfolding(crate::specs::Edges::edges_behind))]
fn push_edges_behind(
    dot: &mut Vec<u8>,
    tellers: &BTreeMap<u64, u64>,
    k: u64,
    byte: u8,
    text: &[u8],
) -> Result<(), AllocError>
    ensures { OnOk result (dot.new.items
        ≡ dot.old.items ++ spec.edges_behind (get nat_cmp tellers.now) k byte text.now) }
{
    if byte != b' ' {
        return Ok(());
    }
    match part_in(text) {
        Some(part) => push_part_edges(dot, tellers, k, part),
        None => Ok(()),
    }
}

/// Appends the edges to the lines that tell the places of a part.
fn push_part_edges(
    dot: &mut Vec<u8>,
    tellers: &BTreeMap<u64, u64>,
    k: u64,
    part: Part,
) -> Result<(), AllocError>
    ensures { OnOk result (dot.new.items
        ≡ dot.old.items ++ spec.part_edges (get nat_cmp tellers.now) k part) }
{
    let mut before = None;
    let mut place = part.first;
    for _ in 0..part.read {
        let line = tellers.get(&place).copied();
        push_edge_to(dot, k, before, line)?;
        before = line;
        place = place.wrapping_add(1);
    }
    Ok(())
}

/// Appends the edge to a line, if there is one, and unless it is the line before.
fn push_edge_to(
    dot: &mut Vec<u8>,
    k: u64,
    before: Option<u64>,
    line: Option<u64>,
) -> Result<(), AllocError>
    ensures { OnOk result (dot.new.items ≡ dot.old.items ++ spec.edge_to k before line) }
{
    match line {
        Some(line) => {
            if !is_at(before, line) {
                push_edge(dot, k, line)?;
            }
            Ok(())
        }
        None => Ok(()),
    }
}

/// Whether a line is the one before.
fn is_at(before: Option<u64>, line: u64) -> bool
    ensures { result ≡ spec.is_at before line }
{
    match before {
        Some(found) => found == line,
        None => false,
    }
}

/// Appends the edge from a line to another.
#[tactic(auto, unfolding(crate::specs::Edges::edge))]
fn push_edge(dot: &mut Vec<u8>, from: u64, to: u64) -> Result<(), AllocError>
    ensures { OnOk result (dot.new.items ≡ dot.old.items ++ spec.edge from to) }
{
    dot.extend_from_slice(b"  n")?;
    dot.extend_from_slice(Buffer::new().format(from).as_bytes())?;
    dot.extend_from_slice(b" -> n")?;
    dot.extend_from_slice(Buffer::new().format(to).as_bytes())?;
    dot.extend_from_slice(b";\n")?;
    Ok(())
}
