//! Answers in other forms: their lines as objects of JSON, and `origin`'s as a graph for Graphviz.
#![tactic(auto)]

mod answer;
mod cut;
mod edges;
mod graph;
mod graph_line;
mod graph_part;
mod member;
mod moves;
mod object;
mod shape;
mod string;
mod table;
mod tellers;

pub use answer::Answer;
pub use cut::{Pieces, begins, behind, cut_at};
pub use graph::dot_of;
pub use moves::push_pieces as push_places;
pub use object::json_of;
pub use string::push_quoted;
