//! The shapes of the lines that bpfdb prints.
ghost use Rattle.std.specs.Prelude.{◌≡◌, map};
ghost use Rattle.answer_forms.specs.Shapes.{pattern_of};
ghost use Rattle.answer_forms.specs.Tables.{patterns_of, piece_shapes};

use crate::answer::Answer;
use crate::shape::{Field, Rest, Shape};

/// What is told of a move besides its parts.
const PIECES: [Shape; 11] = [
    Shape {
        kind: b"",
        begin: b"",
        fields: &[Field::Count(b"slot", b": "), Field::Text(b"insn", b"")],
        rest: Rest::Nothing,
    },
    Shape {
        kind: b"",
        begin: b"then at ",
        fields: &[Field::Count(b"to", b"")],
        rest: Rest::Nothing,
    },
    Shape {
        kind: b"",
        begin: b"in ",
        fields: &[
            Field::Text(b"function", b" ("),
            Field::Text(b"file", b":"),
            Field::Count(b"line", b")"),
        ],
        rest: Rest::Nothing,
    },
    Shape {
        kind: b"",
        begin: b"in ",
        fields: &[Field::Text(b"name", b"")],
        rest: Rest::Nothing,
    },
    Shape {
        kind: b"",
        begin: b"called by ",
        fields: &[
            Field::Text(b"caller", b" ("),
            Field::Text(b"caller_file", b":"),
            Field::Count(b"caller_line", b")"),
        ],
        rest: Rest::Nothing,
    },
    Shape {
        kind: b"",
        begin: b"initial value of ",
        fields: &[Field::Text(b"initial", b"")],
        rest: Rest::Nothing,
    },
    Shape {
        kind: b"",
        begin: b"",
        fields: &[Field::Text(b"way", b" to "), Field::Count(b"to", b"")],
        rest: Rest::Nothing,
    },
    Shape {
        kind: b"",
        begin: b"byte ",
        fields: &[Field::Count(b"byte", b" of the context")],
        rest: Rest::Nothing,
    },
    Shape {
        kind: b"",
        begin: b"at the ",
        fields: &[Field::Text(b"since", b"")],
        rest: Rest::Nothing,
    },
    Shape {
        kind: b"",
        begin: b"before the ",
        fields: &[Field::Text(b"since", b"")],
        rest: Rest::Nothing,
    },
    Shape {
        kind: b"",
        begin: b"not written since the ",
        fields: &[Field::Text(b"since", b"")],
        rest: Rest::Nothing,
    },
];

/// What `run` prints, with the name of a verdict, or without.
const VALUE: [Shape; 2] = [
    Shape {
        kind: b"result",
        begin: b"",
        fields: &[Field::Text(b"r0", b" "), Field::Text(b"verdict", b"")],
        rest: Rest::Nothing,
    },
    Shape {
        kind: b"result",
        begin: b"",
        fields: &[Field::Text(b"r0", b"")],
        rest: Rest::Nothing,
    },
];

/// What `trace`, `origin`, `whynot` and `diff` print.
const RUN: [Shape; 26] = [
    Shape {
        kind: b"step",
        begin: b"",
        fields: &[
            Field::Count(b"step", b" "),
            Field::Count(b"slot", b": "),
            Field::Text(b"insn", b"; "),
        ],
        rest: Rest::Moves,
    },
    Shape {
        kind: b"step",
        begin: b"",
        fields: &[
            Field::Count(b"step", b" "),
            Field::Count(b"slot", b": "),
            Field::Text(b"insn", b""),
        ],
        rest: Rest::Moves,
    },
    Shape {
        kind: b"move",
        begin: b"-",
        fields: &[Field::Count(b"moves", b" ")],
        rest: Rest::Moves,
    },
    Shape {
        kind: b"kept",
        begin: b"kept: -",
        fields: &[Field::Count(b"moves", b" ")],
        rest: Rest::Moves,
    },
    Shape {
        kind: b"made",
        begin: b"made: -",
        fields: &[Field::Count(b"moves", b" ")],
        rest: Rest::Moves,
    },
    Shape {
        kind: b"overwritten",
        begin: b"overwritten: -",
        fields: &[Field::Count(b"moves", b" ")],
        rest: Rest::Moves,
    },
    Shape {
        kind: b"left",
        begin: b"left ",
        fields: &[],
        rest: Rest::Moves,
    },
    Shape {
        kind: b"at",
        begin: b"at ",
        fields: &[Field::Count(b"slot", b": "), Field::Text(b"insn", b"; ")],
        rest: Rest::Places,
    },
    Shape {
        kind: b"exited",
        begin: b"exited at ",
        fields: &[Field::Count(b"slot", b": r0 "), Field::Text(b"r0", b"; ")],
        rest: Rest::Places,
    },
    Shape {
        kind: b"fault",
        begin: b"fault ",
        fields: &[Field::Text(b"fault", b" at "), Field::Count(b"slot", b"; ")],
        rest: Rest::Places,
    },
    Shape {
        kind: b"limit",
        begin: b"step limit ",
        fields: &[
            Field::Count(b"limit", b" reached at "),
            Field::Count(b"slot", b"; "),
        ],
        rest: Rest::Places,
    },
    Shape {
        kind: b"unwritten",
        begin: b"read of ",
        fields: &[
            Field::Text(b"address", b" at "),
            Field::Count(b"slot", b": not written since the call; "),
        ],
        rest: Rest::Places,
    },
    Shape {
        kind: b"at",
        begin: b"at ",
        fields: &[Field::Count(b"slot", b": "), Field::Text(b"insn", b"")],
        rest: Rest::Nothing,
    },
    Shape {
        kind: b"exited",
        begin: b"exited at ",
        fields: &[Field::Count(b"slot", b": r0 "), Field::Text(b"r0", b"")],
        rest: Rest::Nothing,
    },
    Shape {
        kind: b"fault",
        begin: b"fault ",
        fields: &[Field::Text(b"fault", b" at "), Field::Count(b"slot", b"")],
        rest: Rest::Nothing,
    },
    Shape {
        kind: b"limit",
        begin: b"step limit ",
        fields: &[
            Field::Count(b"limit", b" reached at "),
            Field::Count(b"slot", b""),
        ],
        rest: Rest::Nothing,
    },
    Shape {
        kind: b"unwritten",
        begin: b"read of ",
        fields: &[
            Field::Text(b"address", b" at "),
            Field::Count(b"slot", b": not written since the call"),
        ],
        rest: Rest::Nothing,
    },
    Shape {
        kind: b"reached",
        begin: b"it was reached ",
        fields: &[Field::Count(b"moves", b" moves back")],
        rest: Rest::Nothing,
    },
    Shape {
        kind: b"same",
        begin: b"same for ",
        fields: &[Field::Count(b"steps", b" steps")],
        rest: Rest::Nothing,
    },
    Shape {
        kind: b"parting",
        begin: b"step ",
        fields: &[Field::Count(b"step", b" "), Field::Text(b"how", b"")],
        rest: Rest::Nothing,
    },
    Shape {
        kind: b"registers",
        begin: b"",
        fields: &[Field::Count(b"slot", b" ")],
        rest: Rest::Registers,
    },
    Shape {
        kind: b"entry",
        begin: b"",
        fields: &[
            Field::Text(b"entry", b": "),
            Field::Text(b"here", b" here, "),
            Field::Text(b"there", b" there; here by step "),
            Field::Count(b"step", b", "),
            Field::Count(b"slot", b": "),
            Field::Text(b"insn", b""),
        ],
        rest: Rest::Nothing,
    },
    Shape {
        kind: b"entry",
        begin: b"",
        fields: &[
            Field::Text(b"entry", b": "),
            Field::Text(b"here", b" here, "),
            Field::Text(b"there", b" there; here since the start"),
        ],
        rest: Rest::Nothing,
    },
    Shape {
        kind: b"entry",
        begin: b"",
        fields: &[
            Field::Text(b"entry", b": "),
            Field::Text(b"here", b" here, "),
            Field::Text(b"there", b" there"),
        ],
        rest: Rest::Nothing,
    },
    Shape {
        kind: b"ends",
        begin: b"",
        fields: &[
            Field::Text(b"place", b" ends otherwise: "),
            Field::Text(b"here", b", "),
            Field::Text(b"there", b""),
        ],
        rest: Rest::Nothing,
    },
    Shape {
        kind: b"same",
        begin: b"same writes",
        fields: &[],
        rest: Rest::Nothing,
    },
];

/// What `trace --profile` prints.
const PROFILE: [Shape; 12] = [
    Shape {
        kind: b"ran",
        begin: b"",
        fields: &[
            Field::Count(b"count", b" "),
            Field::Count(b"slot", b": "),
            Field::Text(b"insn", b"; "),
        ],
        rest: Rest::Moves,
    },
    Shape {
        kind: b"ran",
        begin: b"",
        fields: &[
            Field::Count(b"count", b" "),
            Field::Count(b"slot", b": "),
            Field::Text(b"insn", b""),
        ],
        rest: Rest::Nothing,
    },
    Shape {
        kind: b"at",
        begin: b"at ",
        fields: &[Field::Count(b"slot", b": "), Field::Text(b"insn", b"; ")],
        rest: Rest::Places,
    },
    Shape {
        kind: b"exited",
        begin: b"exited at ",
        fields: &[Field::Count(b"slot", b": r0 "), Field::Text(b"r0", b"; ")],
        rest: Rest::Places,
    },
    Shape {
        kind: b"fault",
        begin: b"fault ",
        fields: &[Field::Text(b"fault", b" at "), Field::Count(b"slot", b"; ")],
        rest: Rest::Places,
    },
    Shape {
        kind: b"limit",
        begin: b"step limit ",
        fields: &[
            Field::Count(b"limit", b" reached at "),
            Field::Count(b"slot", b"; "),
        ],
        rest: Rest::Places,
    },
    Shape {
        kind: b"unwritten",
        begin: b"read of ",
        fields: &[
            Field::Text(b"address", b" at "),
            Field::Count(b"slot", b": not written since the call; "),
        ],
        rest: Rest::Places,
    },
    Shape {
        kind: b"at",
        begin: b"at ",
        fields: &[Field::Count(b"slot", b": "), Field::Text(b"insn", b"")],
        rest: Rest::Nothing,
    },
    Shape {
        kind: b"exited",
        begin: b"exited at ",
        fields: &[Field::Count(b"slot", b": r0 "), Field::Text(b"r0", b"")],
        rest: Rest::Nothing,
    },
    Shape {
        kind: b"fault",
        begin: b"fault ",
        fields: &[Field::Text(b"fault", b" at "), Field::Count(b"slot", b"")],
        rest: Rest::Nothing,
    },
    Shape {
        kind: b"limit",
        begin: b"step limit ",
        fields: &[
            Field::Count(b"limit", b" reached at "),
            Field::Count(b"slot", b""),
        ],
        rest: Rest::Nothing,
    },
    Shape {
        kind: b"unwritten",
        begin: b"read of ",
        fields: &[
            Field::Text(b"address", b" at "),
            Field::Count(b"slot", b": not written since the call"),
        ],
        rest: Rest::Nothing,
    },
];

/// What `trace --calls` prints.
const CALLS: [Shape; 12] = [
    Shape {
        kind: b"call",
        begin: b"",
        fields: &[
            Field::Count(b"step", b" "),
            Field::Count(b"slot", b": "),
            Field::Text(b"name", b"("),
            Field::Text(b"args", b") = "),
            Field::Text(b"result", b"; "),
        ],
        rest: Rest::Moves,
    },
    Shape {
        kind: b"call",
        begin: b"",
        fields: &[
            Field::Count(b"step", b" "),
            Field::Count(b"slot", b": "),
            Field::Text(b"name", b"("),
            Field::Text(b"args", b") = "),
            Field::Text(b"result", b""),
        ],
        rest: Rest::Nothing,
    },
    Shape {
        kind: b"at",
        begin: b"at ",
        fields: &[Field::Count(b"slot", b": "), Field::Text(b"insn", b"; ")],
        rest: Rest::Places,
    },
    Shape {
        kind: b"exited",
        begin: b"exited at ",
        fields: &[Field::Count(b"slot", b": r0 "), Field::Text(b"r0", b"; ")],
        rest: Rest::Places,
    },
    Shape {
        kind: b"fault",
        begin: b"fault ",
        fields: &[Field::Text(b"fault", b" at "), Field::Count(b"slot", b"; ")],
        rest: Rest::Places,
    },
    Shape {
        kind: b"limit",
        begin: b"step limit ",
        fields: &[
            Field::Count(b"limit", b" reached at "),
            Field::Count(b"slot", b"; "),
        ],
        rest: Rest::Places,
    },
    Shape {
        kind: b"unwritten",
        begin: b"read of ",
        fields: &[
            Field::Text(b"address", b" at "),
            Field::Count(b"slot", b": not written since the call; "),
        ],
        rest: Rest::Places,
    },
    Shape {
        kind: b"at",
        begin: b"at ",
        fields: &[Field::Count(b"slot", b": "), Field::Text(b"insn", b"")],
        rest: Rest::Nothing,
    },
    Shape {
        kind: b"exited",
        begin: b"exited at ",
        fields: &[Field::Count(b"slot", b": r0 "), Field::Text(b"r0", b"")],
        rest: Rest::Nothing,
    },
    Shape {
        kind: b"fault",
        begin: b"fault ",
        fields: &[Field::Text(b"fault", b" at "), Field::Count(b"slot", b"")],
        rest: Rest::Nothing,
    },
    Shape {
        kind: b"limit",
        begin: b"step limit ",
        fields: &[
            Field::Count(b"limit", b" reached at "),
            Field::Count(b"slot", b""),
        ],
        rest: Rest::Nothing,
    },
    Shape {
        kind: b"unwritten",
        begin: b"read of ",
        fields: &[
            Field::Text(b"address", b" at "),
            Field::Count(b"slot", b": not written since the call"),
        ],
        rest: Rest::Nothing,
    },
];

/// How many instructions and slots a program has.
const SIZE: Shape = Shape {
    kind: b"ok",
    begin: b"ok ",
    fields: &[
        Field::Count(b"instructions", b" instructions in "),
        Field::Count(b"slots", b" slots"),
    ],
    rest: Rest::Nothing,
};

/// What `check` prints.
const CHECK: [Shape; 1] = [SIZE];

/// What `disasm` prints.
const LISTING: [Shape; 2] = [
    Shape {
        kind: b"label",
        begin: b"",
        fields: &[Field::Text(b"label", b":")],
        rest: Rest::Nothing,
    },
    Shape {
        kind: b"insn",
        begin: b"",
        fields: &[Field::Text(b"insn", b"")],
        rest: Rest::Nothing,
    },
];

/// Where a slot stands in C: in a function alone, or in a line, too.
const FUNCTION: Shape = Shape {
    kind: b"line",
    begin: b"",
    fields: &[Field::Count(b"slot", b" - "), Field::Text(b"function", b"")],
    rest: Rest::Nothing,
};

const SOURCE: Shape = Shape {
    kind: b"line",
    begin: b"",
    fields: &[
        Field::Count(b"slot", b" "),
        Field::Text(b"file", b":"),
        Field::Count(b"line", b" "),
        Field::Text(b"function", b""),
    ],
    rest: Rest::Nothing,
};

/// Where a slot stands in a listing, with labels or without.
const LABELLED: Shape = Shape {
    kind: b"line",
    begin: b"",
    fields: &[Field::Count(b"slot", b" "), Field::Count(b"line", b" ")],
    rest: Rest::Labels,
};

const LINE: Shape = Shape {
    kind: b"line",
    begin: b"",
    fields: &[Field::Count(b"slot", b" "), Field::Count(b"line", b"")],
    rest: Rest::Labels,
};

/// What `lines` prints.
const LINES: [Shape; 4] = [FUNCTION, SOURCE, LABELLED, LINE];

/// A map of a program, with a name or without.
const NAMED_MAP: Shape = Shape {
    kind: b"map",
    begin: b"map ",
    fields: &[
        Field::Count(b"map", b": "),
        Field::Count(b"value", b"x"),
        Field::Count(b"entries", b" at "),
        Field::Text(b"address", b" "),
        Field::Text(b"name", b""),
    ],
    rest: Rest::Nothing,
};

const MAP: Shape = Shape {
    kind: b"map",
    begin: b"map ",
    fields: &[
        Field::Count(b"map", b": "),
        Field::Count(b"value", b"x"),
        Field::Count(b"entries", b" at "),
        Field::Text(b"address", b""),
    ],
    rest: Rest::Nothing,
};

/// What of a program is other than Linux's: a function, and how.
const DIFFERENCE: Shape = Shape {
    kind: b"differs",
    begin: b"other than Linux: ",
    fields: &[Field::Text(b"name", b" "), Field::Text(b"how", b"")],
    rest: Rest::Nothing,
};

/// What `load` prints.
const PROGRAM: [Shape; 8] = [
    SIZE, NAMED_MAP, MAP, DIFFERENCE, FUNCTION, SOURCE, LABELLED, LINE,
];

/// What `test` prints.
const REPORT: [Shape; 17] = [
    Shape {
        kind: b"plan",
        begin: b"1..",
        fields: &[Field::Count(b"tests", b"")],
        rest: Rest::Nothing,
    },
    Shape {
        kind: b"passed",
        begin: b"ok ",
        fields: &[Field::Count(b"test", b" - "), Field::Text(b"name", b"")],
        rest: Rest::Nothing,
    },
    Shape {
        kind: b"passed",
        begin: b"ok ",
        fields: &[Field::Count(b"test", b"")],
        rest: Rest::Nothing,
    },
    Shape {
        kind: b"failed",
        begin: b"not ok ",
        fields: &[Field::Count(b"test", b" - "), Field::Text(b"name", b"")],
        rest: Rest::Nothing,
    },
    Shape {
        kind: b"failed",
        begin: b"not ok ",
        fields: &[Field::Count(b"test", b"")],
        rest: Rest::Nothing,
    },
    Shape {
        kind: b"place",
        begin: b"# the test in line ",
        fields: &[Field::Count(b"line", b"")],
        rest: Rest::Nothing,
    },
    Shape {
        kind: b"came",
        begin: b"# came: ",
        fields: &[Field::Text(b"came", b"")],
        rest: Rest::Nothing,
    },
    Shape {
        kind: b"wanted",
        begin: b"# wanted: ",
        fields: &[Field::Text(b"wanted", b"")],
        rest: Rest::Nothing,
    },
    Shape {
        kind: b"debug",
        begin: b"# debug: ",
        fields: &[Field::Text(b"debug", b"")],
        rest: Rest::Nothing,
    },
    Shape {
        kind: b"byte",
        begin: b"# byte ",
        fields: &[Field::Count(b"byte", b" came: "), Field::Text(b"came", b"")],
        rest: Rest::Nothing,
    },
    Shape {
        kind: b"byte",
        begin: b"# byte ",
        fields: &[
            Field::Count(b"byte", b" wanted: "),
            Field::Text(b"wanted", b""),
        ],
        rest: Rest::Nothing,
    },
    Shape {
        kind: b"length",
        begin: b"# bytes of the context: ",
        fields: &[
            Field::Count(b"context", b", of mem-after: "),
            Field::Count(b"after", b""),
        ],
        rest: Rest::Nothing,
    },
    Shape {
        kind: b"cell",
        begin: b"# cell ",
        fields: &[
            Field::Count(b"map", b" "),
            Field::Count(b"index", b" came: "),
            Field::Text(b"came", b""),
        ],
        rest: Rest::Nothing,
    },
    Shape {
        kind: b"cell",
        begin: b"# cell ",
        fields: &[
            Field::Count(b"map", b" "),
            Field::Count(b"index", b" wanted: "),
            Field::Text(b"wanted", b""),
        ],
        rest: Rest::Nothing,
    },
    Shape {
        kind: b"cells",
        begin: b"# more wrong cells: ",
        fields: &[Field::Count(b"more", b"")],
        rest: Rest::Nothing,
    },
    Shape {
        kind: b"cover",
        begin: b"# cover of the program in line ",
        fields: &[
            Field::Count(b"line", b": "),
            Field::Count(b"ran", b" of "),
            Field::Count(b"instructions", b" instructions, "),
            Field::Count(b"both", b" of "),
            Field::Count(b"branches", b" branches both ways"),
        ],
        rest: Rest::Nothing,
    },
    Shape {
        kind: b"missed",
        begin: b"# never ",
        fields: &[
            Field::Text(b"never", b": "),
            Field::Count(b"slot", b": "),
            Field::Text(b"insn", b""),
        ],
        rest: Rest::Nothing,
    },
];

/// The shapes of the lines of an answer.
pub fn shapes_of(answer: Answer) -> &'static [Shape]
    ensures { map pattern_of result.now ≡ patterns_of answer }
{
    match answer {
        Answer::Value => &VALUE,
        Answer::Run => &RUN,
        Answer::Profile => &PROFILE,
        Answer::Calls => &CALLS,
        Answer::Check => &CHECK,
        Answer::Listing => &LISTING,
        Answer::Lines => &LINES,
        Answer::Program => &PROGRAM,
        Answer::Report => &REPORT,
    }
}

/// The shapes of what is told of a move besides its parts.
pub fn piece_shapes() -> &'static [Shape]
    ensures { map pattern_of result.now ≡ piece_shapes }
{
    &PIECES
}
