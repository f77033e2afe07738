//! The text of a graph.
ghost use Rattle.std.specs.Prelude.{◌≡◌, ◌++◌, ◌||◌, ◌==◌, IfOk, OnOk, flat_map, map};
ghost use Rattle.answer_forms.specs.Cuts.{pieces};
ghost use Rattle.answer_forms.specs.Graphs as spec;

use crate::Pieces;
use crate::edges::push_edges;
use itoa::Buffer;
use std::alloc::{AllocError, Global};

/// An answer as a graph in DOT: a node a line, and an edge from each line to those that tell what it
/// says was read. Where there is no answer there is no graph.
#[tactic(auto, unfolding(crate::specs::Graphs::dot_of))]
pub fn dot_of(alloc: Global, text: &[u8]) -> Result<Vec<u8>, AllocError>
    ensures { IfOk result (λ dot. dot.items ≡ spec.dot_of text.now) }
{
    let mut dot = Vec::new(alloc);
    if text.is_empty() {
        return Ok(dot);
    }
    let lines = lines_of(alloc, text)?;
    dot.extend_from_slice(b"strict digraph origin {\n  node [shape=box];\n")?;
    push_nodes(&mut dot, lines.as_slice())?;
    push_edges(alloc, &mut dot, lines.as_slice())?;
    dot.extend_from_slice(b"}\n")?;
    Ok(dot)
}

/// The lines of a text.
fn lines_of(alloc: Global, text: &[u8]) -> Result<Vec<&[u8]>, AllocError>
    ensures { IfOk result (λ lines. map (λ s. s.now) lines.items ≡ pieces 10 text.now) }
{
    let mut lines = Vec::new(alloc);
    let mut rest = Pieces::of(text, b'\n');
    'rest: while let Some(line) = rest.next_piece() {
        lines.push(line)?;
    }
    Ok(lines)
}

/// Appends the nodes of lines.
fn push_nodes(dot: &mut Vec<u8>, lines: &[&[u8]]) -> Result<(), AllocError>
    ensures { OnOk result (dot.new.items
        ≡ dot.old.items ++ spec.nodes 0 (map (λ s. s.now) lines.now)) }
{
    for k in 0..lines.len() {
        push_node(dot, k as u64, lines[k])?;
    }
    Ok(())
}

/// Appends the node of a line.
#[tactic(auto, unfolding(crate::specs::Graphs::node))]
fn push_node(dot: &mut Vec<u8>, k: u64, line: &[u8]) -> Result<(), AllocError>
    ensures { OnOk result (dot.new.items ≡ dot.old.items ++ spec.node k line.now) }
{
    dot.extend_from_slice(b"  n")?;
    dot.extend_from_slice(Buffer::new().format(k).as_bytes())?;
    dot.extend_from_slice(b" [label=\"")?;
    push_escaped(dot, line)?;
    dot.extend_from_slice(b"\"];\n")?;
    Ok(())
}

/// Appends a text as it stands in a label.
fn push_escaped(dot: &mut Vec<u8>, text: &[u8]) -> Result<(), AllocError>
    ensures { OnOk result (dot.new.items ≡ dot.old.items ++ flat_map spec.escaped text.now) }
{
    for byte in text {
        push_byte(dot, *byte)?;
    }
    Ok(())
}

/// Appends a byte as it stands in a label.
#[tactic(auto, unfolding(crate::specs::Graphs::escaped))]
fn push_byte(dot: &mut Vec<u8>, byte: u8) -> Result<(), AllocError>
    ensures { OnOk result (dot.new.items ≡ dot.old.items ++ spec.escaped byte) }
{
    if byte == b'"' || byte == b'\\' {
        dot.extend_from_slice(&[b'\\', byte])?;
    } else {
        dot.extend_from_slice(&[byte])?;
    }
    Ok(())
}
