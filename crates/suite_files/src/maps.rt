//! Maps as a section of tests lists them.
ghost use Rattle.std.specs.Prelude.{◌≡◌, ◌++◌, IfOk, codes, flat_map};
ghost use Rattle.counted_io.specs.Writing.{WritesAfter};
ghost use Rattle.suite_files.specs.Maps.{maps_text, shape_text};

use bpf_isa::MapShape;
use counted_io::{Counted, Piece, WriteFault, put, put_all};
use std::alloc::{AllocError, Global};
use std::io::Write;

/// The text of maps, as `--maps` takes it; nothing where there are none.
pub fn maps_text(alloc: Global, shapes: &[MapShape]) -> Result<Vec<u8>, AllocError>
    ensures { IfOk result (λ text. text.items ≡ maps_text shapes.now) }
{
    let mut writer = Counted::new(Vec::new(alloc));
    match put_maps(&mut writer, Ok(()), shapes) {
        Ok(()) => Ok(writer.into_inner()),
        Err(WriteFault) => Err(AllocError),
    }
}

/// Writes maps.
fn put_maps<W: Write>(
    writer: &mut Counted<W>,
    so_far: Result<(), WriteFault>,
    shapes: &[MapShape],
) -> Result<(), WriteFault>
    ensures { WritesAfter W.contents writer.old so_far writer.new result (maps_text shapes.now) }
{
    match shapes.split_first() {
        Some((first, rest)) => {
            let size = u64::from(first.value_size);
            let entries = u64::from(first.entries);
            let pieces = [
                Piece::Decimal(size),
                Piece::Text(b"x"),
                Piece::Decimal(entries),
            ];
            let begun = put_all(writer, so_far, &pieces);
            put_further(writer, begun, rest)
        }
        None => put(writer, so_far, b""),
    }
}

/// Writes maps with a comma before each.
fn put_further<W: Write>(
    writer: &mut Counted<W>,
    so_far: Result<(), WriteFault>,
    shapes: &[MapShape],
) -> Result<(), WriteFault>
    ensures { WritesAfter W.contents writer.old so_far writer.new result
        (flat_map (λ shape. codes "," ++ shape_text shape) shapes.now) }
{
    let mut told = so_far;
    for shape in shapes {
        let size = u64::from(shape.value_size);
        let entries = u64::from(shape.entries);
        let pieces = [
            Piece::Text(b","),
            Piece::Decimal(size),
            Piece::Text(b"x"),
            Piece::Decimal(entries),
        ];
        told = put_all(writer, told, &pieces);
    }
    told
}
