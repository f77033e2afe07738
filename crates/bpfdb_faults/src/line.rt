//! The line of a fault.
ghost use Rattle.std.specs.Prelude.{◌≡◌, ◌≤◌, ◌++◌, codes, length};
ghost use Rattle.counted_io.specs.Writing.{WritesAfter};
ghost use Rattle.bpf_link.specs.Helpers.{helper_name};
ghost use Rattle.bpf_suite.specs.Refusals.{refusal_text};
ghost use Rattle.bpfdb_faults.specs.Faults.{answer_text, file_line, helpers_text, label_text, line_of, hint_of, more_of, name_text, object_text, other_map_line, origin_text, other_text, others_text, refusal_line, refused_line, slot_of_words, source_text, functions_end};

use crate::fault::JobFault;
use crate::refusal::JobRefusal;
use bpf_lines::put_no_place;
use bpf_link::{LinkFault, Source, helper_name};
use bpf_suite::{Refusal, put_numbered, slot_of};
use bpfdb_script::put_shown;
use counted_io::{Counted, Piece, WriteFault, put, put_all};
use std::io::Write;

/// Writes the line of a fault, after what was written so far, unless that failed.
pub fn put_line<E: Write>(
    errors: &mut Counted<E>,
    so_far: Result<(), WriteFault>,
    fault: &JobFault<'_>,
) -> Result<(), WriteFault>
    ensures { WritesAfter E.contents errors.old so_far errors.new result (line_of fault.now) }
{
    match fault {
        JobFault::Unreadable(name) => put_file(errors, so_far, b"cannot read ", name),
        JobFault::Unwritable(name) => put_file(errors, so_far, b"cannot write ", name),
        JobFault::NotText => put(errors, so_far, b"the command line is not UTF-8 text\n"),
        JobFault::Refused(refusal) => put_refusal(errors, so_far, refusal),
        JobFault::Input => put(errors, so_far, b"cannot read input\n"),
        JobFault::Output => put(errors, so_far, b"cannot write output\n"),
        JobFault::Memory => put(errors, so_far, b"out of memory\n"),
    }
}

/// Writes the line of a file, behind these words.
fn put_file<E: Write>(
    errors: &mut Counted<E>,
    so_far: Result<(), WriteFault>,
    words: &[u8],
    name: &str,
) -> Result<(), WriteFault>
    ensures { WritesAfter E.contents errors.old so_far errors.new result (file_line words.now name.now) }
{
    let begun = put(errors, so_far, words);
    let named = put_shown(errors, begun, name.as_bytes());
    put(errors, named, b"\n")
}

/// Writes the line of a refusal.
fn put_refusal<E: Write>(
    errors: &mut Counted<E>,
    so_far: Result<(), WriteFault>,
    refusal: &JobRefusal<'_>,
) -> Result<(), WriteFault>
    ensures { WritesAfter E.contents errors.old so_far errors.new result
        (refusal_line refusal.now) }
{
    match refusal {
        JobRefusal::Maps(fault) => put_program(errors, so_far, &Refusal::Maps(*fault)),
        JobRefusal::Listing(fault) => put_program(errors, so_far, &Refusal::Listing(*fault)),
        JobRefusal::Load(fault) => put_program(errors, so_far, &Refusal::Load(*fault)),
        JobRefusal::Open(fault) => put_program(errors, so_far, &Refusal::Open(*fault)),
        JobRefusal::OtherRun(refusal) => put_other_run(errors, so_far, refusal),
        JobRefusal::TraceLine(fault, line) => {
            let (number, text) = (fault.number(), fault.text());
            put_refused(errors, so_far, b"refused X", number, Some(*line), text)
        }
        JobRefusal::Journal(fault) => {
            let (number, text) = (fault.number(), fault.text());
            put_refused(errors, so_far, b"refused J", number, None, text)
        }
        JobRefusal::Script(refusal) => bpfdb_script::put_refusal(errors, so_far, *refusal),
        JobRefusal::What(fault) => {
            let (number, text) = (fault.number(), fault.text());
            put_refused(errors, so_far, b"refused V", number, None, text)
        }
        JobRefusal::Goal(fault) => {
            let (number, text) = (fault.number(), fault.text());
            put_refused(errors, so_far, b"refused V", number, None, text)
        }
        JobRefusal::NoPlace(name) => put_no_place(errors, so_far, name.as_bytes()),
        JobRefusal::Object(fault, name) => put_object(errors, so_far, fault, name, b"\n"),
        JobRefusal::Functions(fault, before, name) => {
            put_functions(errors, so_far, fault, *before, name)
        }
        JobRefusal::Tests(fault, line) => {
            let (number, text) = (fault.number(), fault.text());
            put_refused(errors, so_far, b"refused T", number, Some(*line), text)
        }
        JobRefusal::NoTest(name) => {
            put_no_such(errors, so_far, b"refused T7: no test of this name", name)
        }
        JobRefusal::ManyTests => {
            put(
                errors,
                so_far,
                b"refused T8: more than one test is asked for\n",
            )
        }
        JobRefusal::Kind(fault) => {
            let (number, text) = (fault.number(), fault.text());
            put_refused(errors, so_far, b"refused F", number, None, text)
        }
        JobRefusal::OtherObject(fault, name) => {
            put_object(errors, so_far, fault, name, b" (the other run)\n")
        }
        JobRefusal::OtherMap(number) => put_other_map(errors, so_far, *number),
        JobRefusal::Opening(fault) => {
            let (number, text) = (fault.number(), fault.text());
            put_refused(errors, so_far, b"refused O", number, None, text)
        }
    }
}

/// Writes the line of a map that is another one in the other program.
fn put_other_map<E: Write>(
    errors: &mut Counted<E>,
    so_far: Result<(), WriteFault>,
    number: usize,
) -> Result<(), WriteFault>
    ensures { WritesAfter E.contents errors.old so_far errors.new result (other_map_line number) }
{
    let pieces = [
        Piece::Text(b"refused F3: map "),
        Piece::Decimal(number as u64),
        Piece::Text(b" is another one in OTHER\n"),
    ];
    put_all(errors, so_far, &pieces)
}

/// Writes the line of a refusal that ends with the name of what there isn't.
fn put_no_such<E: Write>(
    errors: &mut Counted<E>,
    so_far: Result<(), WriteFault>,
    text: &[u8],
    name: &str,
) -> Result<(), WriteFault>
    ensures { WritesAfter E.contents errors.old so_far errors.new result
        (text.now ++ name_text name.now ++ codes "\n") }
{
    let begun = put(errors, so_far, text);
    let named = put_named(errors, begun, name.as_bytes());
    put(errors, named, b"\n")
}

/// Writes the line of a program's refusal.
fn put_program<E: Write>(
    errors: &mut Counted<E>,
    so_far: Result<(), WriteFault>,
    refusal: &Refusal,
) -> Result<(), WriteFault>
    ensures { WritesAfter E.contents errors.old so_far errors.new result
        (refusal_text refusal.now ++ codes "\n") }
{
    let said = bpf_suite::put_refusal(errors, so_far, refusal);
    put(errors, said, b"\n")
}

/// Writes the line of a refusal of the other run.
fn put_other_run<E: Write>(
    errors: &mut Counted<E>,
    so_far: Result<(), WriteFault>,
    refusal: &Refusal,
) -> Result<(), WriteFault>
    ensures { WritesAfter E.contents errors.old so_far errors.new result
        (refusal_text refusal.now ++ codes " (the other run)\n") }
{
    let said = bpf_suite::put_refusal(errors, so_far, refusal);
    put(errors, said, b" (the other run)\n")
}

/// Writes the line of a refusal: how it begins, its number, its line if it has one, and its text.
fn put_refused<'a, E: Write>(
    errors: &mut Counted<E>,
    so_far: Result<(), WriteFault>,
    family: &'a [u8],
    number: u8,
    line: Option<usize>,
    text: &'a str,
) -> Result<(), WriteFault>
    ensures { WritesAfter E.contents errors.old so_far errors.new result
        (refused_line family.now number line text.now) }
{
    let said = put_numbered(errors, so_far, family, number, b" at line ", line, text);
    put(errors, said, b"\n")
}

/// Writes the line of an object's fault, which ends so.
#[inline(never)]
pub fn put_object<E: Write>(
    errors: &mut Counted<E>,
    so_far: Result<(), WriteFault>,
    fault: &LinkFault,
    name: &[u8],
    end: &[u8],
) -> Result<(), WriteFault>
    ensures { WritesAfter E.contents errors.old so_far errors.new result
        (object_text fault.now name.now ++ end.now) }
{
    let (number, text) = (fault.number(), fault.text());
    let slot = slot_of_words(fault);
    let begun = put_numbered(
        errors,
        so_far,
        b"refused E",
        number,
        b" at slot ",
        slot,
        text,
    );
    let said = put_more(errors, begun, fault);
    let hinted = put_hint(errors, said, fault);
    let named = put_named(errors, hinted, name);
    let placed = put_origin(errors, named, fault);
    put(errors, placed, end)
}

/// Writes the line of the fault of an object of `--with`, the one behind so many others.
fn put_functions<E: Write>(
    errors: &mut Counted<E>,
    so_far: Result<(), WriteFault>,
    fault: &LinkFault,
    before: usize,
    name: &[u8],
) -> Result<(), WriteFault>
    ensures { WritesAfter E.contents errors.old so_far errors.new result
        (object_text fault.now name.now ++ functions_end before) }
{
    let said = put_object(errors, so_far, fault, name, b"");
    put_place(errors, said, before)
}

/// Writes which object of `--with` has a fault, the one behind so many others.
fn put_place<E: Write>(
    errors: &mut Counted<E>,
    so_far: Result<(), WriteFault>,
    before: usize,
) -> Result<(), WriteFault>
    ensures { WritesAfter E.contents errors.old so_far errors.new result (functions_end before) }
{
    if before == 0 {
        return put(errors, so_far, b" (--with)\n");
    }
    let pieces = [
        Piece::Text(b" (--with, object "),
        Piece::Decimal((before as u64).saturating_add(1)),
        Piece::Text(b")\n"),
    ];
    put_all(errors, so_far, &pieces)
}

/// Writes the slot of a section from which the slot of an object's fault comes, if there is one.
fn put_origin<E: Write>(
    errors: &mut Counted<E>,
    so_far: Result<(), WriteFault>,
    fault: &LinkFault,
) -> Result<(), WriteFault>
    ensures { WritesAfter E.contents errors.old so_far errors.new result (origin_text fault.now) }
{
    match fault {
        LinkFault::Program { source, .. } => put_source(errors, so_far, *source),
        LinkFault::Helper { source, .. } => put_source(errors, so_far, *source),
        LinkFault::Packet { source, .. } => put_source(errors, so_far, *source),
        _ => put(errors, so_far, b""),
    }
}

/// Writes the slot of a section, if one is known.
fn put_source<E: Write>(
    errors: &mut Counted<E>,
    so_far: Result<(), WriteFault>,
    source: Option<Source>,
) -> Result<(), WriteFault>
    ensures { WritesAfter E.contents errors.old so_far errors.new result (source_text source) }
{
    match source {
        Some(source) => {
            let pieces = [Piece::Text(b", slot "), Piece::Decimal(source.slot as u64)];
            put_all(errors, so_far, &pieces)
        }
        None => put(errors, so_far, b""),
    }
}

/// Writes the name of what is wrong, if there is one.
fn put_named<E: Write>(
    errors: &mut Counted<E>,
    so_far: Result<(), WriteFault>,
    name: &[u8],
) -> Result<(), WriteFault>
    ensures { WritesAfter E.contents errors.old so_far errors.new result (name_text name.now) }
{
    match name {
        [] => put(errors, so_far, b""),
        _ => {
            let begun = put(errors, so_far, b": ");
            put_shown(errors, begun, name)
        }
    }
}

/// Writes what gives a program of the kernel's its packet, if that is the fault.
fn put_hint<E: Write>(
    errors: &mut Counted<E>,
    so_far: Result<(), WriteFault>,
    fault: &LinkFault,
) -> Result<(), WriteFault>
    ensures { WritesAfter E.contents errors.old so_far errors.new result (hint_of fault.now) }
{
    match fault {
        LinkFault::Context { .. } => put(
            errors,
            so_far,
            b": --struct, in tests -- struct, gives it one of the machine's",
        ),
        _ => put(errors, so_far, b""),
    }
}

/// Writes what stands behind the text of an object's fault.
fn put_more<E: Write>(
    errors: &mut Counted<E>,
    so_far: Result<(), WriteFault>,
    fault: &LinkFault,
) -> Result<(), WriteFault>
    ensures { WritesAfter E.contents errors.old so_far errors.new result (more_of fault.now) }
{
    match fault {
        LinkFault::Helper { helper, others, .. } => put_helpers(errors, so_far, *helper, others),
        LinkFault::Fields { count, .. } => {
            let pieces = [
                Piece::Text(b", "),
                Piece::Decimal(u64::from(*count)),
                Piece::Text(b" in all: --fields compiled leaves them undone"),
            ];
            put_all(errors, so_far, &pieces)
        }
        LinkFault::ManySections => put(errors, so_far, b": --entry NAME chooses one"),
        LinkFault::ManyPrograms => put(errors, so_far, b": --entry NAME chooses one"),
        _ => put(errors, so_far, b""),
    }
}

/// Writes the number of a helper, and its name in the kernel, if it has one.
fn put_label<E: Write>(
    errors: &mut Counted<E>,
    so_far: Result<(), WriteFault>,
    helper: u32,
) -> Result<(), WriteFault>
    ensures { WritesAfter E.contents errors.old so_far errors.new result
        (label_text helper (helper_name helper)) }
{
    let number = u64::from(helper);
    let name = helper_name(helper);
    match name {
        [] => put_all(errors, so_far, &[Piece::Decimal(number)]),
        _ => {
            let pieces = [
                Piece::Decimal(number),
                Piece::Text(b" (bpf_"),
                Piece::Text(name),
                Piece::Text(b")"),
            ];
            put_all(errors, so_far, &pieces)
        }
    }
}

/// Writes the options that answer a helper.
fn put_answer<E: Write>(
    errors: &mut Counted<E>,
    so_far: Result<(), WriteFault>,
    helper: u32,
) -> Result<(), WriteFault>
    ensures { WritesAfter E.contents errors.old so_far errors.new result
        (answer_text helper (helper_name helper)) }
{
    let number = u64::from(helper);
    let name = helper_name(helper);
    match name {
        [] => {
            let pieces = [
                Piece::Text(b": --helper "),
                Piece::Decimal(number),
                Piece::Text(b"=VALUE answers it"),
            ];
            put_all(errors, so_far, &pieces)
        }
        _ => {
            let pieces = [
                Piece::Text(b": --with OBJECT or --helper "),
                Piece::Decimal(number),
                Piece::Text(b"=VALUE answers it"),
            ];
            put_all(errors, so_far, &pieces)
        }
    }
}

/// Writes one of the other helpers, if it is one.
fn put_other<E: Write>(
    errors: &mut Counted<E>,
    so_far: Result<(), WriteFault>,
    is_other: bool,
    helper: u32,
) -> Result<(), WriteFault>
    ensures { WritesAfter E.contents errors.old so_far errors.new result
        (other_text is_other helper) }
{
    if !is_other {
        return put(errors, so_far, b"");
    }
    let begun = put(errors, so_far, b", ");
    put_label(errors, begun, helper)
}

/// Writes the other helpers.
fn put_others<E: Write>(
    errors: &mut Counted<E>,
    so_far: Result<(), WriteFault>,
    others: &[bool],
) -> Result<(), WriteFault>
    requires { length others.now ≤ 212 }
    ensures { WritesAfter E.contents errors.old so_far errors.new result (others_text others.now) }
{
    let mut told = so_far;
    for helper in 0..others.len() {
        told = put_other(errors, told, others[helper], helper as u32);
    }
    told
}

/// Writes the helpers that there aren't, the first one and the others, and what answers the first.
fn put_helpers<E: Write>(
    errors: &mut Counted<E>,
    so_far: Result<(), WriteFault>,
    helper: u32,
    others: &[bool],
) -> Result<(), WriteFault>
    requires { length others.now ≤ 212 }
    ensures { WritesAfter E.contents errors.old so_far errors.new result
        (helpers_text helper others.now) }
{
    let begun = put(errors, so_far, b" ");
    let named = put_label(errors, begun, helper);
    let listed = put_others(errors, named, others);
    put_answer(errors, listed, helper)
}

/// The slot of an object's fault, where the words that are linked have one, or a relocation.
fn slot_of_words(fault: &LinkFault) -> Option<usize>
    ensures { result ≡ slot_of_words fault.now }
{
    match fault {
        LinkFault::Symbol(slot) => Some(*slot),
        LinkFault::Relocation { slot, .. } => Some(*slot),
        LinkFault::Undefined { slot, .. } => Some(*slot),
        LinkFault::Program { fault, .. } => slot_of(fault),
        LinkFault::Helper { slot, .. } => Some(*slot),
        LinkFault::Fields { slot, .. } => Some(*slot),
        LinkFault::Packet { slot, .. } => Some(*slot),
        _ => None,
    }
}
