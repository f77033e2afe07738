//! The options of the subcommands, as a table, and what stands behind them.
use crate::help;

/// What an option takes.
#[derive(Clone, Copy)]
pub(crate) enum Takes<'a> {
    /// Nothing.
    Nothing,
    /// Nothing, and it asks for nothing that isn't so without it; help leaves it out.
    Obsolete,
    /// A text.
    Text,
    /// A text; the option has a name of one letter, too.
    ShortText(char),
    /// A text; the option was called so before, and is still known by that name.
    Renamed(&'a str),
    /// Nothing; the option has a name of one letter, too, and is still known by its old name.
    RenamedFlag(char, &'a str),
    /// A text each time that it comes.
    Texts,
    /// A text, or this one.
    TextOr(&'a str),
    /// A number of steps, of lines or of a packet.
    Count,
    /// Such a number, or this one.
    CountOr(&'a str),
    /// A number below 2^64, or this one.
    SizeOr(&'a str),
    /// It is no option, but FILE, which has to be named.
    File,
    /// FILE, or this one.
    FileOr(&'a str),
    /// It is no option, but what stands behind FILE.
    Second,
    /// That, where it has to stand there.
    NeededSecond,
}

/// An option that some of the subcommands take, or what stands behind the options.
pub(crate) struct CliOption<'a> {
    /// Its name, without hyphens.
    pub(crate) name: &'a str,
    pub(crate) takes: Takes<'a>,
    /// What help calls that.
    pub(crate) value: &'a str,
    /// What `-h` says of it.
    pub(crate) about: &'a str,
    /// What `--help` says of it, where that is more.
    pub(crate) long_about: &'a str,
}

/// `-m PATH`, `--mem PATH`.
pub(crate) const MEM: CliOption<'static> = CliOption {
    name: "mem",
    takes: Takes::ShortText('m'),
    value: "PATH",
    about: help::MEM,
    long_about: help::MEM_LONG,
};

/// `--packet N`.
pub(crate) const PACKET: CliOption<'static> = CliOption {
    name: "packet",
    takes: Takes::Count,
    value: "N",
    about: help::PACKET,
    long_about: help::PACKET_LONG,
};

/// `--maps VxN,VxN`.
pub(crate) const MAPS: CliOption<'static> = CliOption {
    name: "maps",
    takes: Takes::Text,
    value: "VxN,VxN",
    about: help::MAPS,
    long_about: help::MAPS_LONG,
};

/// `--regs REG=VALUE,REG=VALUE`.
pub(crate) const REGS: CliOption<'static> = CliOption {
    name: "regs",
    takes: Takes::Text,
    value: "REG=VALUE",
    about: help::REGS,
    long_about: help::REGS_LONG,
};

/// `--journal J`.
pub(crate) const JOURNAL: CliOption<'static> = CliOption {
    name: "journal",
    takes: Takes::SizeOr("65536"),
    value: "J",
    about: help::JOURNAL,
    long_about: help::JOURNAL_LONG,
};

/// `--journal J` of `gdb`, `origin` and `whynot`, whose histories are longer.
pub(crate) const GDB_JOURNAL: CliOption<'static> = CliOption {
    name: "journal",
    takes: Takes::SizeOr("4194304"),
    value: "J",
    about: help::JOURNAL,
    long_about: help::JOURNAL_LONG,
};

/// `--steps N`.
pub(crate) const STEPS: CliOption<'static> = CliOption {
    name: "steps",
    takes: Takes::CountOr("1000000"),
    value: "N",
    about: help::STEPS,
    long_about: help::STEPS_LONG,
};

/// `--from K`.
pub(crate) const FROM: CliOption<'static> = CliOption {
    name: "from",
    takes: Takes::CountOr("1"),
    value: "K",
    about: help::FROM,
    long_about: help::FROM_LONG,
};

/// `--count N`.
pub(crate) const COUNT: CliOption<'static> = CliOption {
    name: "count",
    takes: Takes::Count,
    value: "N",
    about: help::COUNT,
    long_about: help::COUNT_LONG,
};

/// `--branches`.
pub(crate) const BRANCHES: CliOption<'static> = CliOption {
    name: "branches",
    takes: Takes::Nothing,
    value: "",
    about: help::BRANCHES,
    long_about: "",
};

/// `--branches` of `origin`.
pub(crate) const DECIDERS: CliOption<'static> = CliOption {
    name: "branches",
    takes: Takes::Nothing,
    value: "",
    about: help::DECIDERS,
    long_about: "",
};

/// `--profile`.
pub(crate) const PROFILE: CliOption<'static> = CliOption {
    name: "profile",
    takes: Takes::Nothing,
    value: "",
    about: help::PROFILE,
    long_about: "",
};

/// `--questions`.
pub(crate) const QUESTIONS: CliOption<'static> = CliOption {
    name: "questions",
    takes: Takes::Nothing,
    value: "",
    about: help::QUESTIONS,
    long_about: "",
};

/// `--calls`.
pub(crate) const CALLS: CliOption<'static> = CliOption {
    name: "calls",
    takes: Takes::Nothing,
    value: "",
    about: help::CALLS,
    long_about: "",
};

/// `--strict`.
pub(crate) const STRICT: CliOption<'static> = CliOption {
    name: "strict",
    takes: Takes::Nothing,
    value: "",
    about: help::STRICT,
    long_about: "",
};

/// `--words`.
pub(crate) const WORDS: CliOption<'static> = CliOption {
    name: "words",
    takes: Takes::Nothing,
    value: "",
    about: help::WORDS,
    long_about: "",
};

/// `--listing`.
pub(crate) const LISTING: CliOption<'static> = CliOption {
    name: "listing",
    takes: Takes::Nothing,
    value: "",
    about: help::LISTING,
    long_about: "",
};

/// `--object`.
pub(crate) const OBJECT: CliOption<'static> = CliOption {
    name: "object",
    takes: Takes::Nothing,
    value: "",
    about: help::OBJECT,
    long_about: "",
};

/// `--registers NAME`.
pub(crate) const REGISTERS: CliOption<'static> = CliOption {
    name: "registers",
    takes: Takes::TextOr("x86"),
    value: "NAME",
    about: help::REGISTERS,
    long_about: help::REGISTERS_LONG,
};

/// `--section NAME`.
pub(crate) const SECTION: CliOption<'static> = CliOption {
    name: "section",
    takes: Takes::Text,
    value: "NAME",
    about: help::SECTION,
    long_about: help::SECTION_LONG,
};

/// `--entry NAME[@OFFSET]`.
pub(crate) const ENTRY: CliOption<'static> = CliOption {
    name: "entry",
    takes: Takes::Texts,
    value: "NAME",
    about: help::ENTRY,
    long_about: help::ENTRY_LONG,
};

/// `--entries NAME=N`.
pub(crate) const ENTRIES: CliOption<'static> = CliOption {
    name: "entries",
    takes: Takes::Texts,
    value: "NAME=N",
    about: help::ENTRIES,
    long_about: help::ENTRIES_LONG,
};

/// `--helper NAME=VALUE,NAME=VALUE`.
pub(crate) const HELPER: CliOption<'static> = CliOption {
    name: "helper",
    takes: Takes::Renamed("stub"),
    value: "NAME=VALUE",
    about: help::HELPER,
    long_about: help::HELPER_LONG,
};

/// `--script PATH`.
pub(crate) const SCRIPT: CliOption<'static> = CliOption {
    name: "script",
    takes: Takes::Text,
    value: "PATH",
    about: help::SCRIPT,
    long_about: help::SCRIPT_LONG,
};

/// `--fields HOW`.
pub(crate) const FIELDS: CliOption<'static> = CliOption {
    name: "fields",
    takes: Takes::Text,
    value: "HOW",
    about: help::FIELDS,
    long_about: help::FIELDS_LONG,
};

/// `--as-compiled`, which `--fields compiled` is without any word.
pub(crate) const AS_COMPILED: CliOption<'static> = CliOption {
    name: "as-compiled",
    takes: Takes::Obsolete,
    value: "",
    about: "",
    long_about: "",
};

/// `--struct KIND`.
pub(crate) const STRUCT: CliOption<'static> = CliOption {
    name: "struct",
    takes: Takes::Text,
    value: "KIND",
    about: help::STRUCT,
    long_about: help::STRUCT_LONG,
};

/// `--with OBJECT`.
pub(crate) const WITH: CliOption<'static> = CliOption {
    name: "with",
    takes: Takes::Texts,
    value: "OBJECT",
    about: help::WITH,
    long_about: help::WITH_LONG,
};

/// `--no-linux`.
pub(crate) const NO_LINUX: CliOption<'static> = CliOption {
    name: "no-linux",
    takes: Takes::Nothing,
    value: "",
    about: help::NO_LINUX,
    long_about: "",
};

/// `--faithful`.
pub(crate) const FAITHFUL: CliOption<'static> = CliOption {
    name: "faithful",
    takes: Takes::Nothing,
    value: "",
    about: help::FAITHFUL,
    long_about: "",
};

/// `-r`, `--relocatable`.
pub(crate) const RELOCATABLE: CliOption<'static> = CliOption {
    name: "relocatable",
    takes: Takes::RenamedFlag('r', "joined"),
    value: "",
    about: help::RELOCATABLE,
    long_about: "",
};

/// `-o PATH`, `--output PATH`.
pub(crate) const OUTPUT: CliOption<'static> = CliOption {
    name: "output",
    takes: Takes::ShortText('o'),
    value: "PATH",
    about: help::OUTPUT,
    long_about: help::OUTPUT_LONG,
};

/// `--lines N`.
pub(crate) const LINES: CliOption<'static> = CliOption {
    name: "lines",
    takes: Takes::CountOr("1000"),
    value: "N",
    about: help::LINES_MOST,
    long_about: help::LINES_MOST_LONG,
};

/// `--addresses`.
pub(crate) const ADDRESSES: CliOption<'static> = CliOption {
    name: "addresses",
    takes: Takes::Nothing,
    value: "",
    about: help::ADDRESSES,
    long_about: "",
};

/// `--alone`.
pub(crate) const ALONE: CliOption<'static> = CliOption {
    name: "alone",
    takes: Takes::Nothing,
    value: "",
    about: help::ALONE,
    long_about: "",
};

/// `--only NAME`.
pub(crate) const ONLY: CliOption<'static> = CliOption {
    name: "only",
    takes: Takes::Text,
    value: "NAME",
    about: help::ONLY,
    long_about: help::ONLY_LONG,
};

/// `--show PART`.
pub(crate) const SHOW: CliOption<'static> = CliOption {
    name: "show",
    takes: Takes::Text,
    value: "PART",
    about: help::SHOW,
    long_about: help::SHOW_LONG,
};

/// `--other-mem PATH`.
pub(crate) const OTHER_MEM: CliOption<'static> = CliOption {
    name: "other-mem",
    takes: Takes::Text,
    value: "PATH",
    about: help::OTHER_MEM,
    long_about: help::OTHER_MEM_LONG,
};

/// `--other-packet N`.
pub(crate) const OTHER_PACKET: CliOption<'static> = CliOption {
    name: "other-packet",
    takes: Takes::Count,
    value: "N",
    about: help::OTHER_PACKET,
    long_about: help::OTHER_PACKET_LONG,
};

/// `--trace PATH`.
pub(crate) const OTHER_TRACE: CliOption<'static> = CliOption {
    name: "trace",
    takes: Takes::Text,
    value: "PATH",
    about: help::OTHER_TRACE,
    long_about: help::OTHER_TRACE_LONG,
};

/// `--writes`.
pub(crate) const WRITES: CliOption<'static> = CliOption {
    name: "writes",
    takes: Takes::Nothing,
    value: "",
    about: help::WRITES,
    long_about: "",
};

/// OTHER, behind FILE.
pub(crate) const OTHER: CliOption<'static> = CliOption {
    name: "other",
    takes: Takes::Second,
    value: "OTHER",
    about: help::OTHER,
    long_about: "",
};

/// `--cover`.
pub(crate) const COVER: CliOption<'static> = CliOption {
    name: "cover",
    takes: Takes::Nothing,
    value: "",
    about: help::COVER,
    long_about: "",
};

/// `--cover-info`.
pub(crate) const COVER_INFO: CliOption<'static> = CliOption {
    name: "cover-info",
    takes: Takes::Nothing,
    value: "",
    about: help::COVER_INFO,
    long_about: "",
};

/// `--anywhere`.
pub(crate) const ANYWHERE: CliOption<'static> = CliOption {
    name: "anywhere",
    takes: Takes::Nothing,
    value: "",
    about: help::ANYWHERE,
    long_about: "",
};

/// `--json`.
pub(crate) const JSON: CliOption<'static> = CliOption {
    name: "json",
    takes: Takes::Nothing,
    value: "",
    about: help::JSON,
    long_about: "",
};

/// `--dot`.
pub(crate) const DOT: CliOption<'static> = CliOption {
    name: "dot",
    takes: Takes::Nothing,
    value: "",
    about: help::DOT,
    long_about: "",
};

/// WHAT, behind FILE.
pub(crate) const WHAT: CliOption<'static> = CliOption {
    name: "what",
    takes: Takes::Second,
    value: "WHAT",
    about: help::WHAT,
    long_about: "",
};

/// WHAT of `whynot`, which needs it.
pub(crate) const GOAL: CliOption<'static> = CliOption {
    name: "what",
    takes: Takes::NeededSecond,
    value: "WHAT",
    about: help::GOAL,
    long_about: "",
};

/// FILE, a program.
pub(crate) const PROGRAM: CliOption<'static> = CliOption {
    name: "file",
    takes: Takes::File,
    value: "FILE",
    about: help::PROGRAM,
    long_about: "",
};

/// FILE of `asm`, a listing.
pub(crate) const LISTING_FILE: CliOption<'static> = CliOption {
    name: "file",
    takes: Takes::File,
    value: "FILE",
    about: help::LISTING_FILE,
    long_about: "",
};

/// FILE of `lines`, an object.
pub(crate) const LINES_FILE: CliOption<'static> = CliOption {
    name: "file",
    takes: Takes::File,
    value: "FILE",
    about: help::LINES_FILE,
    long_about: "",
};

/// FILE of `link`, an object.
pub(crate) const OBJECT_FILE: CliOption<'static> = CliOption {
    name: "file",
    takes: Takes::File,
    value: "FILE",
    about: help::OBJECT_FILE,
    long_about: "",
};

/// FILE of `test`, a file of tests.
pub(crate) const TEST_FILE: CliOption<'static> = CliOption {
    name: "file",
    takes: Takes::File,
    value: "FILE",
    about: help::TEST_FILE,
    long_about: "",
};

/// FILE of `batch`, the program of cases that name none.
pub(crate) const SHARED_PROGRAM: CliOption<'static> = CliOption {
    name: "file",
    takes: Takes::FileOr("/dev/null"),
    value: "FILE",
    about: help::SHARED_PROGRAM,
    long_about: "",
};
