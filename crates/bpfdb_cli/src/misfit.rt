//! Why options don't go together.
ghost use Rattle.std.specs.Prelude.{◌≡◌, IfNone, OnSome, codes, false, is_some, length, nat_le, not, true, ◌&&◌};
ghost use Rattle.std.specs.List.{list_all};
ghost use Rattle.input_texts.specs.Counts.{are_counts};
ghost use Rattle.input_texts.specs.Turns.{has_place};
ghost use Rattle.clap.specs.Words.{found_of, rows_of};
ghost use Rattle.bpfdb_cli.specs.Plans.{asks_of_fields, asks_of_link, asks_of_program, calls_fit, counts_strictly, entries_fit, go_together, graph_fits, has_offset, is_json_graph, is_json_tracefile, is_of, is_strictly_fit, joins_nothing, joins_otherwise, kinds_fit, may_be_object, names_one, names_other, names_side, obeys_strictly, object_fits, packets_fit, run_fits, shows_json, texts_in, told_fits, writes_fit};

use crate::values::{has_text, is_given};
use clap::ArgMatches;
use input_texts::{are_counts, has_place, offset_in};

/// What is said of options that don't go together.
const LISTING_AND_WORDS: &str = "the argument '--listing' cannot be used with '--words'";

const OBJECT_AND_WORDS: &str = "the argument '--object' cannot be used with '--words'";

const OBJECT_AND_LISTING: &str = "the argument '--object' cannot be used with '--listing'";

const OBJECT_AND_MAPS: &str = "the argument '--object' cannot be used with '--maps <VxN,VxN>'";

const TWO_OTHERS: &str = "the argument '[OTHER]' cannot be used with '--other-mem <PATH>'";

const OTHER_AND_TRACE: &str = "the argument '[OTHER]' cannot be used with '--trace <PATH>'";

const CONTEXT_AND_TRACE: &str =
    "the argument '--other-mem <PATH>' cannot be used with '--trace <PATH>'";

const WRITES_AND_TRACE: &str = "the argument '--writes' cannot be used with '--trace <PATH>'";

const NO_OTHER: &str =
    "a second program, '[OTHER]', or '--other-mem <PATH>' or '--trace <PATH>' is needed";

const PACKET_ALONE: &str =
    "'--packet <N>' needs '--mem <PATH>', and '--other-packet <N>' needs '--other-mem <PATH>'";

const STRICT_AND_PROFILE: &str = "the argument '--strict' cannot be used with '--profile'";

const STRICT_AND_SCRIPT: &str = "the argument '--strict' cannot be used with '--script <PATH>'";

const CALLS_AND_BRANCHES: &str = "the argument '--calls' cannot be used with '--branches'";

const CALLS_AND_PROFILE: &str = "the argument '--calls' cannot be used with '--profile'";

const CALLS_AND_STRICT: &str = "the argument '--calls' cannot be used with '--strict'";

const SHOW_AND_JSON: &str = "the argument '--show <PART>' cannot be used with '--json'";

const TRACEFILE_AND_JSON: &str = "the argument '--cover-info' cannot be used with '--json'";

const DOT_AND_JSON: &str = "the argument '--dot' cannot be used with '--json'";

const RELOCATABLE_ALONE: &str = "'--relocatable' needs '--with', '--entries', or several '--entry'";

const RELOCATABLE_AND_STRUCT: &str =
    "the argument '--relocatable' cannot be used with '--struct <KIND>'";

const RELOCATABLE_AND_HELPER: &str =
    "the argument '--relocatable' cannot be used with '--helper <NAME=VALUE>'";

const RELOCATABLE_AND_ENTRY: &str =
    "the argument '--relocatable' cannot be used with one '--entry <NAME>'";

const RELOCATABLE_AND_FIELDS: &str =
    "the argument '--relocatable' cannot be used with '--fields <HOW>' without '--with'";

const BAD_ENTRY: &str =
    "behind the '@' of '--entry <NAME>' a number is wanted, in bytes, at most 65535";

const BAD_COUNT: &str =
    "each '--entries <NAME=N>' names a map of its own, and N is a number, 1 to 4294967295";

const OF_OBJECTS: &str =
    "'--section', '--entry', '--entries', '--helper', '--fields', '--struct' and '--with' are of objects: without '--words', '--listing' and '--maps'";

/// Why the options of a subcommand's matches don't go together, if they don't. (`clap` could be told
/// of that; but then its contract doesn't say what it refuses.)
pub fn misfit_in(name: &str, found: &ArgMatches<'_>) -> Option<&'static str>
    ensures none { IfNone result (go_together name.now (rows_of (found_of found.now)) ≡ true) }
    ensures some { OnSome result (go_together name.now (rows_of (found_of found.now)) ≡ false) }
{
    if !entries_fit(found) {
        return Some(BAD_ENTRY);
    }
    if !counts_fit(found) {
        return Some(BAD_COUNT);
    }
    if !packets_fit(found) {
        return Some(PACKET_ALONE);
    }
    match misfit_of_calls(found) {
        Some(why) => Some(why),
        None => misfit_of_strict(name, found),
    }
}

/// What is asked beside the calls of a run and isn't told with them, if there is something.
fn misfit_of_calls(found: &ArgMatches<'_>) -> Option<&'static str>
    ensures none { IfNone result (calls_fit (rows_of (found_of found.now)) ≡ true) }
    ensures some { OnSome result (calls_fit (rows_of (found_of found.now)) ≡ false) }
{
    if !is_given(found, "calls") {
        return None;
    }
    if is_given(found, "branches") {
        Some(CALLS_AND_BRANCHES)
    } else if is_given(found, "profile") {
        Some(CALLS_AND_PROFILE)
    } else if is_given(found, "strict") {
        Some(CALLS_AND_STRICT)
    } else {
        None
    }
}

/// What a strict run doesn't do, if that is asked, or why what is written isn't written so.
fn misfit_of_strict(name: &str, found: &ArgMatches<'_>) -> Option<&'static str>
    ensures none { IfNone result ((is_strictly_fit (rows_of (found_of found.now))
        && told_fits name.now (rows_of (found_of found.now))) ≡ true) }
    ensures some { OnSome result ((is_strictly_fit (rows_of (found_of found.now))
        && told_fits name.now (rows_of (found_of found.now))) ≡ false) }
{
    if counts_strictly(found) {
        Some(STRICT_AND_PROFILE)
    } else if obeys_strictly(found) {
        Some(STRICT_AND_SCRIPT)
    } else {
        misfit_of_text(name, found)
    }
}

/// Whether each packet that is asked for is one of a context.
fn packets_fit(found: &ArgMatches<'_>) -> bool
    ensures { result ≡ packets_fit (rows_of (found_of found.now)) }
{
    is_of(found, "packet", "mem") && is_of(found, "other-packet", "other-mem")
}

/// Whether a packet that is asked for is one of the context that this option names.
fn is_of(found: &ArgMatches<'_>, packet: &str, path: &str) -> bool
    ensures { result ≡ is_of packet.now path.now (rows_of (found_of found.now)) }
{
    if has_text(found, packet) {
        has_text(found, path)
    } else {
        true
    }
}

/// Why what is written isn't written as JSON, if it isn't: a part of a test and a tracefile are
/// written as they are, and a graph is written in place of it.
fn misfit_of_text(name: &str, found: &ArgMatches<'_>) -> Option<&'static str>
    ensures none { IfNone result (told_fits name.now (rows_of (found_of found.now)) ≡ true) }
    ensures some { OnSome result (told_fits name.now (rows_of (found_of found.now)) ≡ false) }
{
    if shows_json(found) {
        return Some(SHOW_AND_JSON);
    }
    if is_json_tracefile(found) {
        Some(TRACEFILE_AND_JSON)
    } else {
        misfit_of_graph(name, found)
    }
}

/// Why what is written isn't written as a graph, if it isn't.
fn misfit_of_graph(name: &str, found: &ArgMatches<'_>) -> Option<&'static str>
    ensures none { IfNone result (graph_fits name.now (rows_of (found_of found.now)) ≡ true) }
    ensures some { OnSome result (graph_fits name.now (rows_of (found_of found.now)) ≡ false) }
{
    if is_json_graph(found) {
        Some(DOT_AND_JSON)
    } else {
        misfit_of_object(name, found)
    }
}

/// Why no object is written, if it isn't.
fn misfit_of_object(name: &str, found: &ArgMatches<'_>) -> Option<&'static str>
    ensures none { IfNone result (object_fits name.now (rows_of (found_of found.now)) ≡ true) }
    ensures some { OnSome result (object_fits name.now (rows_of (found_of found.now)) ≡ false) }
{
    if joins_nothing(found) {
        return Some(RELOCATABLE_ALONE);
    }
    match misfit_of_joining(found) {
        Some(why) => Some(why),
        None => misfit_of_run(name, found),
    }
}

/// Whether the object is to be written that nothing makes of FILE.
fn joins_nothing(found: &ArgMatches<'_>) -> bool
    ensures { result ≡ joins_nothing (rows_of (found_of found.now)) }
{
    if !is_given(found, "relocatable") || has_text(found, "with") {
        return false;
    }
    !has_text(found, "entries") && has_one_entry(found)
}

/// What is asked beside the object that is to be written and isn't done of it, if there is something.
fn misfit_of_joining(found: &ArgMatches<'_>) -> Option<&'static str>
    ensures { is_some result ≡ joins_otherwise (rows_of (found_of found.now)) }
{
    if !is_given(found, "relocatable") {
        return None;
    }
    match asked_of_program(found) {
        Some(why) => Some(why),
        None => asked_of_fields(found),
    }
}

/// What is asked of the one program that would be linked of an object, if something is.
fn asked_of_program(found: &ArgMatches<'_>) -> Option<&'static str>
    ensures { is_some result ≡ asks_of_program (rows_of (found_of found.now)) }
{
    if has_text(found, "struct") {
        return Some(RELOCATABLE_AND_STRUCT);
    }
    if has_text(found, "helper") {
        return Some(RELOCATABLE_AND_HELPER);
    }
    if has_text(found, "entry") && has_one_entry(found) {
        Some(RELOCATABLE_AND_ENTRY)
    } else {
        None
    }
}

/// What is asked of the fields of an object to which nothing is joined, if something is.
fn asked_of_fields(found: &ArgMatches<'_>) -> Option<&'static str>
    ensures { is_some result ≡ asks_of_fields (rows_of (found_of found.now)) }
{
    if has_text(found, "fields") && !has_text(found, "with") {
        Some(RELOCATABLE_AND_FIELDS)
    } else {
        None
    }
}

/// Whether no programs are called in turn.
pub fn has_one_entry(found: &ArgMatches<'_>) -> bool
    ensures { result ≡ names_one (texts_in (codes "entry") (rows_of (found_of found.now))) }
{
    match found.get_strs("entry") {
        Some(texts) => is_one(texts),
        None => true,
    }
}

/// Whether some texts name one program at most, and no offset of it.
fn is_one(texts: &[&str]) -> bool
    ensures { result ≡ (nat_le (length texts.now) 1 && list_all (λ text. not (has_place text.now)) texts.now) }
{
    texts.len() <= 1 && have_no_places(texts)
}

/// Whether none of some texts has an `@`.
fn have_no_places(texts: &[&str]) -> bool
    ensures { result ≡ list_all (λ text. not (has_place text.now)) texts.now }
{
    texts.iter().all(|text| !has_place(text.as_bytes()))
}

/// Whether a part of a test is to be shown as JSON.
fn shows_json(found: &ArgMatches<'_>) -> bool
    ensures { result ≡ shows_json (rows_of (found_of found.now)) }
{
    has_text(found, "show") && is_given(found, "json")
}

/// Whether a tracefile is to be JSON.
fn is_json_tracefile(found: &ArgMatches<'_>) -> bool
    ensures { result ≡ is_json_tracefile (rows_of (found_of found.now)) }
{
    is_given(found, "cover-info") && is_given(found, "json")
}

/// Whether a graph is to be JSON.
fn is_json_graph(found: &ArgMatches<'_>) -> bool
    ensures { result ≡ is_json_graph (rows_of (found_of found.now)) }
{
    is_given(found, "dot") && is_given(found, "json")
}

/// Whether the steps of a strict run are to be counted.
fn counts_strictly(found: &ArgMatches<'_>) -> bool
    ensures { result ≡ counts_strictly (rows_of (found_of found.now)) }
{
    is_given(found, "strict") && is_given(found, "profile")
}

/// Whether a script is to be obeyed strictly, and then asked where it leads.
fn obeys_strictly(found: &ArgMatches<'_>) -> bool
    ensures { result ≡ obeys_strictly (rows_of (found_of found.now)) }
{
    is_given(found, "strict") && has_text(found, "script")
}

/// Why what is asked of runs and said of FILE doesn't go together, if it doesn't.
fn misfit_of_run(name: &str, found: &ArgMatches<'_>) -> Option<&'static str>
    ensures none { IfNone result (run_fits name.now (rows_of (found_of found.now)) ≡ true) }
    ensures some { OnSome result (run_fits name.now (rows_of (found_of found.now)) ≡ false) }
{
    if name == "diff" {
        match misfit_of_other(found) {
            Some(why) => Some(why),
            None => misfit_of_writes(found),
        }
    } else {
        misfit_of_kind(found)
    }
}

/// Why the other side is none that leaves something to compare, or what is said of FILE doesn't go
/// together, if that is so.
fn misfit_of_writes(found: &ArgMatches<'_>) -> Option<&'static str>
    ensures none { IfNone result ((writes_fit (rows_of (found_of found.now))
        && kinds_fit (rows_of (found_of found.now))) ≡ true) }
    ensures some { OnSome result ((writes_fit (rows_of (found_of found.now))
        && kinds_fit (rows_of (found_of found.now))) ≡ false) }
{
    if is_given(found, "writes") && has_text(found, "trace") {
        Some(WRITES_AND_TRACE)
    } else {
        misfit_of_kind(found)
    }
}

/// Whether each entry that names a place of the context has a number for it.
fn entries_fit(found: &ArgMatches<'_>) -> bool
    ensures { result ≡ entries_fit (rows_of (found_of found.now)) }
{
    match found.get_strs("entry") {
        Some(texts) => have_offsets(texts),
        None => true,
    }
}

/// Whether each of some texts has a number where it has an `@`.
fn have_offsets(texts: &[&str]) -> bool
    ensures { result ≡ list_all (λ text. has_offset text.now) texts.now }
{
    texts
        .iter()
        .all(|text| offset_in(text.as_bytes()).is_some())
}

/// Whether numbers of entries are such, each of a map of its own.
fn counts_fit(found: &ArgMatches<'_>) -> bool
    ensures { result ≡ are_counts (texts_in (codes "entries") (rows_of (found_of found.now))) }
{
    match found.get_strs("entries") {
        Some(texts) => are_counts(texts),
        None => true,
    }
}

/// Why the other run is none, if it isn't.
fn misfit_of_other(found: &ArgMatches<'_>) -> Option<&'static str>
    ensures { is_some result ≡ not (names_other (rows_of (found_of found.now))) }
{
    if has_text(found, "other") {
        if has_text(found, "other-mem") {
            Some(TWO_OTHERS)
        } else if has_text(found, "trace") {
            Some(OTHER_AND_TRACE)
        } else {
            None
        }
    } else {
        misfit_of_side(found)
    }
}

/// Why neither a second context nor a trace is the other side, if that is so.
fn misfit_of_side(found: &ArgMatches<'_>) -> Option<&'static str>
    ensures { is_some result ≡ not (names_side (rows_of (found_of found.now))) }
{
    if has_text(found, "other-mem") {
        if has_text(found, "trace") {
            Some(CONTEXT_AND_TRACE)
        } else {
            None
        }
    } else if has_text(found, "trace") {
        None
    } else {
        Some(NO_OTHER)
    }
}

/// Why what is said of FILE doesn't go together, if it doesn't.
fn misfit_of_kind(found: &ArgMatches<'_>) -> Option<&'static str>
    ensures none { IfNone result (kinds_fit (rows_of (found_of found.now)) ≡ true) }
    ensures some { OnSome result (kinds_fit (rows_of (found_of found.now)) ≡ false) }
{
    if is_given(found, "object") {
        misfit_with_object(found)
    } else if asks_of_link(found) {
        misfit_of_link(found)
    } else if is_given(found, "listing") && is_given(found, "words") {
        Some(LISTING_AND_WORDS)
    } else {
        None
    }
}

/// What is said beside `--object` and is of no object, if there is something.
fn misfit_with_object(found: &ArgMatches<'_>) -> Option<&'static str>
    ensures { is_some result ≡ not (may_be_object (rows_of (found_of found.now))) }
{
    if is_given(found, "words") {
        Some(OBJECT_AND_WORDS)
    } else if is_given(found, "listing") {
        Some(OBJECT_AND_LISTING)
    } else if has_text(found, "maps") {
        Some(OBJECT_AND_MAPS)
    } else {
        None
    }
}

/// The same beside what is asked of a link.
fn misfit_of_link(found: &ArgMatches<'_>) -> Option<&'static str>
    ensures { is_some result ≡ not (may_be_object (rows_of (found_of found.now))) }
{
    match misfit_with_object(found) {
        Some(_) => Some(OF_OBJECTS),
        None => None,
    }
}

/// Whether something is asked of the link of an object.
pub fn asks_of_link(found: &ArgMatches<'_>) -> bool
    ensures { result ≡ asks_of_link (rows_of (found_of found.now)) }
{
    let chooses = has_text(found, "section") || has_text(found, "entry");
    let adds = has_text(found, "with") || has_text(found, "entries");
    let fits = has_text(found, "struct") || (has_text(found, "fields") || adds);
    let leaves = is_given(found, "as-compiled") || fits;
    chooses || (has_text(found, "helper") || leaves)
}
