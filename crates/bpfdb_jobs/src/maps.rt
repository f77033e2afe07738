//! The lines that tell of an object that was linked.
ghost use Rattle.std.specs.Prelude.{◌++◌, OnErr, OnOk, flat_map, codes};
ghost use Rattle.counted_io.specs.Writing.{Writes, WritesAfter};
ghost use Rattle.bpfdb_faults.specs.Streams.{Gets, Loses, stream};
ghost use Rattle.bpfdb_jobs.specs.MapLines.{count_line, linked_text, linked_told, maps_line, name_line, name_lines, names_behind, shape_text};

use bpf_isa::MapShape;
use bpf_link::short_at;
use bpfdb_faults::flush_after;
use bpfdb_script::put_shown;
use counted_io::{Counted, Piece, WriteFault, put, put_all};
use std::io::Write;

/// Tells on standard error the maps of an object, as `--maps` takes them, the names that stand at
/// places there, how many calls of helpers are answered, and how many fields are left as compiled, a
/// line each; nothing where there is none.
pub fn tell_linked<E: Write>(
    errors: &mut Counted<E>,
    object: &[u8],
    shapes: &[MapShape],
    places: &[usize],
    answered: Option<u64>,
    fields: Option<u64>,
) -> Result<(), WriteFault>
    ensures ok { OnOk result (Gets (stream E.contents errors.old errors.new)
        (linked_told object.now shapes.now places.now answered fields)) }
    ensures err { OnErr result (Loses (stream E.contents errors.old errors.new)
        (linked_told object.now shapes.now places.now answered fields)) }
{
    if shapes.is_empty() && (answered.is_none() && fields.is_none()) {
        return Ok(());
    }
    write_linked(errors, object, shapes, places, answered, fields)
}

/// Writes all lines, and flushes.
fn write_linked<E: Write>(
    errors: &mut Counted<E>,
    object: &[u8],
    shapes: &[MapShape],
    places: &[usize],
    answered: Option<u64>,
    fields: Option<u64>,
) -> Result<(), WriteFault>
    ensures { Writes E.contents errors.old errors.new result
        (linked_text object.now shapes.now places.now answered fields) }
{
    let listed = put_maps(errors, Ok(()), shapes);
    let told = put_names_behind(errors, listed, shapes, object, places);
    let called = put_count(errors, told, b"calls answered by --helper: ", answered);
    let left = put_count(errors, called, b"fields left as compiled: ", fields);
    flush_after(errors, left)
}

/// Writes the lines of names behind that of the maps, if that is told.
fn put_names_behind<E: Write>(
    errors: &mut Counted<E>,
    so_far: Result<(), WriteFault>,
    shapes: &[MapShape],
    object: &[u8],
    places: &[usize],
) -> Result<(), WriteFault>
    ensures { WritesAfter E.contents errors.old so_far errors.new result
        (names_behind shapes.now object.now places.now) }
{
    match shapes {
        [] => put(errors, so_far, b""),
        _ => put_names(errors, so_far, object, places),
    }
}

/// Writes a line of each name that stands at a place of an object, behind the map's number.
fn put_names<E: Write>(
    errors: &mut Counted<E>,
    so_far: Result<(), WriteFault>,
    object: &[u8],
    places: &[usize],
) -> Result<(), WriteFault>
    ensures { WritesAfter E.contents errors.old so_far errors.new result
        (name_lines object.now places.now) }
{
    let mut told = so_far;
    for number in 0..places.len() {
        told = put_name(errors, told, number, short_at(object, places[number]));
    }
    told
}

/// Writes the line of a map's name, if it has one.
fn put_name<E: Write>(
    errors: &mut Counted<E>,
    so_far: Result<(), WriteFault>,
    number: usize,
    name: &[u8],
) -> Result<(), WriteFault>
    ensures { WritesAfter E.contents errors.old so_far errors.new result
        (name_line number name.now) }
{
    match name {
        [] => put(errors, so_far, b""),
        _ => {
            let number = number as u64;
            let pieces = [
                Piece::Text(b"map "),
                Piece::Decimal(number),
                Piece::Text(b": "),
            ];
            let begun = put_all(errors, so_far, &pieces);
            let named = put_shown(errors, begun, name);
            put(errors, named, b"\n")
        }
    }
}

/// Writes a line of how many there are, if that is to be told.
fn put_count<E: Write>(
    errors: &mut Counted<E>,
    so_far: Result<(), WriteFault>,
    text: &[u8],
    count: Option<u64>,
) -> Result<(), WriteFault>
    ensures { WritesAfter E.contents errors.old so_far errors.new result (count_line text.now count) }
{
    match count {
        Some(count) => {
            let pieces = [Piece::Text(text), Piece::Decimal(count), Piece::Text(b"\n")];
            put_all(errors, so_far, &pieces)
        }
        None => put(errors, so_far, b""),
    }
}

/// Writes the line of maps, if there are some.
fn put_maps<E: Write>(
    errors: &mut Counted<E>,
    so_far: Result<(), WriteFault>,
    shapes: &[MapShape],
) -> Result<(), WriteFault>
    ensures { WritesAfter E.contents errors.old so_far errors.new result (maps_line shapes.now) }
{
    match shapes.split_first() {
        Some((first, rest)) => {
            let size = u64::from(first.value_size);
            let entries = u64::from(first.entries);
            let pieces = [
                Piece::Text(b"--maps "),
                Piece::Decimal(size),
                Piece::Text(b"x"),
                Piece::Decimal(entries),
            ];
            let begun = put_all(errors, so_far, &pieces);
            let told = put_further(errors, begun, rest);
            put(errors, told, b"\n")
        }
        None => put(errors, so_far, b""),
    }
}

/// Writes maps with a comma before each.
fn put_further<E: Write>(
    errors: &mut Counted<E>,
    so_far: Result<(), WriteFault>,
    shapes: &[MapShape],
) -> Result<(), WriteFault>
    ensures { WritesAfter E.contents errors.old so_far errors.new result
        (flat_map (λ shape. codes "," ++ shape_text shape) shapes.now) }
{
    let mut told = so_far;
    for shape in shapes {
        let size = u64::from(shape.value_size);
        let entries = u64::from(shape.entries);
        let pieces = [
            Piece::Text(b","),
            Piece::Decimal(size),
            Piece::Text(b"x"),
            Piece::Decimal(entries),
        ];
        told = put_all(errors, told, &pieces);
    }
    told
}
