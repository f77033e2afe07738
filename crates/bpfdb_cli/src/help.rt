//! The texts of help. `clap` adds the usage line, the lists of commands and options, and the
//! defaults; it doesn't wrap lines, and indents those of options by ten columns: so they have 80
//! columns at most here, and those of options 70.

/// The version, and the toolchain that proved it.
pub const VERSION: &str = "0.11.0 (rattle-kit-13f logic dac8208d650f15bf)";

/// What bpfdb is.
pub const BPFDB: &str = "Runs BPF programs (RFC 9669) forwards and backwards";

pub const BPFDB_LONG: &str = "Runs BPF programs (RFC 9669) forwards and backwards.

FILE holds a program: an object of clang, which is linked first; a listing, one
instruction a line, whose name ends in .s; or raw little-endian words, with
relocations applied. Its first bytes and its name show which; --object,
--listing and --words insist. The context is the bytes that the program works
on: r1 has their address, r2 their number.

Without arguments bpfdb debugs a small program that is built in: mov r0, 42 and
exit.";

pub const BPFDB_EXAMPLE: &str = "Example:
  $ cat count.s
  loop: add r0, 1
  jlt r0, 3, loop
  exit
  $ bpfdb run count.s
  0x3
  $ printf 'stepi 3\\nreverse-stepi\\nundo\\n' | bpfdb debug count.s
  3 forward; done; at 1: jlt r0, 3, L0
  1 back; done; at 0: add r0, 1
  2 back; done; at 0: add r0, 1

Exit status: 0; 1 where `run` or `trace` ends in a fault or at the limit of
steps, a test fails, an answer of `origin` or `whynot` is cut, or the runs of
`diff` part; 2 where the command line or the program is refused, input or output
fails, or memory runs out.
Results go to standard output, and so do the replies of a session, refusals
among them.
Where it ends with 1 or 2 a line on standard error says why; but `trace`,
`test`, `origin` and `whynot` say in their output why they end with 1.";

pub const RUN: &str = "Runs a program to its end and prints r0";

pub const RUN_LONG: &str = "Runs a program to its end and prints r0.

Reads FILE, and the context from the file that -m names. Writes r0 to standard
output, as 0x and hexadecimal digits. If the program faults or reaches the limit
of steps, a line on standard error says so, with the slot of the instruction.
Then the exit status is 1, and nothing is on standard output. --strict stops
so, too, before an instruction that reads a byte of the stack which nothing
wrote since the call of its function.";

pub const RUN_EXAMPLE: &str = "Example:
  $ bpfdb run --steps 5000 count.s
  0x3";

pub const TRACE: &str = "Runs a program to its end and shows each step";

pub const TRACE_LONG: &str = "Runs a program to its end and shows each step.

Reads FILE, and the context from the file that -m names. Writes a line a step to
standard output: its number, its slot and instruction, and each place that it
wrote, with the value there after it, whether that changed or not. The last line
says where the program ended, or that the limit of steps is reached; then, and
where it faults, the exit status is 1. --branches shows of these steps the
conditional jumps alone: the registers that each one compared, and whether it
jumped or went on. --profile tells how often each instruction ran, in place of
the steps. --calls writes a line a call that leaves FILE's own code in place of
them: of a helper, or of a function of --with or of Linux's library, with the
arguments, and what it returned. --strict stops before an instruction that reads
a byte of the stack which nothing wrote since the call of its function.";

pub const TRACE_EXAMPLE: &str = "Example:
  $ bpfdb trace --from 5 count.s
  5 0: add r0, 1; r0 = 0x3
  6 1: jlt r0, 3, L0
  7 2: exit
  exited at 2: r0 0x3
  $ bpfdb trace --branches --count 2 count.s
  2 1: jlt r0, 3, L0; r0 = 0x1; jumped
  exited at 2: r0 0x3
  $ bpfdb trace --profile count.s
  3 0: add r0, 1
  3 1: jlt r0, 3, L0
  1 2: exit
  exited at 2: r0 0x3";

pub const DEBUG: &str = "Obeys commands from standard input, forwards and backwards";

pub const DEBUG_LONG: &str = "Obeys commands from standard input, forwards and backwards.

Reads FILE, the context, and from standard input a script, one command a line:

  forward        stepi, nexti, continue, finish
  back           undo, reverse-stepi, reverse-nexti, reverse-continue or rc,
                 reverse-finish
  forward again  redo
  edits          set reg, set mem, set cell, set pc
  stops          break, delete, watch, unwatch
  views          info regs, info frames, info breaks, info history, info trace,
                 x, disas, last-write
  end            quit

With --questions a line may also ask, of the session as it stands:

  origin [WHAT]  where a value came from
  whynot WHAT    why the program did not come to a slot, or to =VALUE

Writes the reply to each command to standard output; with --json as an object of
JSON, a line each, with the number of the line that it answers. A refused
command gets a reply, changes nothing, and the session continues. The exit
status is 0 then too, and where the program faulted. --strict stops before an
instruction that reads a byte of the stack which nothing wrote since the call of
its function, as long as no edit was made. `man bpfdb` describes each command.";

pub const DEBUG_EXAMPLE: &str = "Example:
  $ printf 'break 1\\ncontinue\\nundo\\n' | bpfdb debug --journal 1048576 count.bin
  ok
  1 forward; break; at 1: jlt r0, 3, L0
  1 back; done; at 0: add r0, 1";

pub const ORIGIN: &str = "Runs a program to its end and shows where a value came from";

pub const ORIGIN_LONG: &str = "Runs a program to its end and shows where a value came from.

Reads FILE and the context, and runs the program to its end or to the limit of
steps; with --script it obeys commands instead, edits and steps back among them,
and asks where they lead. WHAT is r0 to r9, or ADDRESS:COUNT for 1 to 256 bytes
of memory (ADDRESS alone is one byte). Without WHAT it is r0, or at a fault the
registers of the address that isn't there. With --strict the run ends before an
instruction that reads a byte of the stack which nothing wrote since the call of
its function: the line of `bpfdb run --strict` comes first then, and without
WHAT it is what that instruction reads.

Writes to standard output where the program stands, then a line for each move
that the value depends on, the newest first: how many moves back, what was
written, the instruction, and what that read. At the end there is a line for
each value that was there before the first kept move. What a branch decided by
is not followed, and which register made an address only with --addresses. With
--branches there follow the branches that decided that these moves were made and
that the program came to where it stands. If an answer is cut (--lines), its
last line says so, and the exit status is 1.";

pub const ORIGIN_EXAMPLE: &str = "Example:
  $ bpfdb origin count.s
  exited at 2: r0 0x3
  -3 r0 = 0x3; 0: add r0, 1; from r0
  -5 r0 = 0x2; 0: add r0, 1; from r0
  -7 r0 = 0x1; 0: add r0, 1; from r0
  left r0 = 0x0; at the opening";

pub const WHYNOT: &str = "Runs a program to its end and shows why it did not come to a slot";

pub const WHYNOT_LONG: &str = "Runs a program to its end and shows why it did not come to a slot.

Reads FILE and the context, and runs the program to its end or to the limit of
steps; with --script it obeys commands instead, edits and steps back among them,
and asks where they lead. WHAT is a slot, or slots with commas between: then it
is asked about any of them. =VALUE are the instructions that make the value as a
constant: =2, or of an object an enumerator, =XDP_DROP. With --strict the run
ends before an instruction that reads a byte of the stack which nothing wrote
since the call of its function, and the line of `bpfdb run --strict` comes
first.

Writes to standard output where the program stands, then the latest kept move
from whose state the program's jumps, calls and returns lead to the slot,
whatever conditions decide, and from whose next state they don't: how many moves
back, the instruction, the values that it compared, and where it went. Unless
--alone is given the place of that instruction follows, and where those values
came from, as `origin` shows it there. If that is cut (--lines), its last line
says so, and the exit status is 1.

Other answers: it was reached, by the move that stood at the slot and left it
out of reach; it can still be reached; it was out of reach from the opening, or
before what is kept.";

pub const WHYNOT_EXAMPLE: &str = "Example:
  $ bpfdb whynot first.s 1
  exited at 4: r0 0x1
  -3 0: jeq r1, 0, L3; r1 = 0x0; jumped to 3
  at 0: jeq r1, 0, L3
  left r1 = 0x0; at the opening";

pub const DIFF: &str = "Runs two programs, or one on two contexts, and shows where they part";

pub const DIFF_LONG: &str = "Runs two programs, or one on two contexts, and shows where they part.

Reads FILE and the context, and a second program, OTHER, or a second context
(--other-mem). Both runs go forward step by step, each to its end or to the
limit of steps; two objects have each its own maps.

Writes to standard output the first step of both at one slot that wrote to other
places or other values, then the first step at which one is at another slot, or
is over, and then how each ended. A line of FILE's run begins with '<', one of
the other with '>'; lines of steps are those of `trace`. Where no step differs,
and both end alike, it says after how many steps and how. The exit status is 0
where they end alike without a difference, 1 where they part or come to the
limit of steps.

Unless --alone is given, it is told at the end where the values came from that
this first step wrote, in either run: the lines that `origin` writes with
--steps K, K the number of the step, each behind its mark.

With --trace the other side is a trace of another machine, and FILE's run goes
along it: the first step that it tells otherwise is written, both lines of it,
and of registers both values, and which step wrote the one here. The exit status
is 0 where it tells the whole run, and nothing else.

With --writes both runs are compared by what each leaves in the context, in the
maps, in the traced words and in r0, as two builds of one source are: the first
place at which they end otherwise is written, and the step of each that wrote it
last. Behind that stands where both values came from.";

pub const DIFF_EXAMPLE: &str = "Example:
  $ bpfdb diff -m four.bin --other-mem five.bin port.s
  step 1 wrote otherwise
  < 1 0: ldxb r2, [r1+0]; r2 = 0x4
  > 1 0: ldxb r2, [r1+0]; r2 = 0x5
  step 3 went elsewhere
  < 3 2: mov r0, 1; r0 = 0x1
  > 3 3: exit
  < exited at 3: r0 0x1
  > exited at 3: r0 0x0
  < at 1: jne r2, 4, L3
  < -1 r2 = 0x4; 0: ldxb r2, [r1+0]; from 0x100000000:1
  < left 0x100000000:1 = 0x4; byte 0 of the context; at the opening
  > at 1: jne r2, 4, L3
  > -1 r2 = 0x5; 0: ldxb r2, [r1+0]; from 0x100000000:1
  > left 0x100000000:1 = 0x5; byte 0 of the context; at the opening";

pub const ASM: &str = "Assembles a listing to raw words";

pub const ASM_LONG: &str = "Assembles a listing to raw words.

Reads the listing FILE (docs/LISTING.md has the grammar). Writes the words of
its instructions, 8 or 16 bytes each, to standard output. The program isn't
checked: `bpfdb check` does that.";

pub const ASM_EXAMPLE: &str = "Example:
  $ bpfdb asm count.s > count.bin";

pub const DISASM: &str = "Writes a program as a listing";

pub const DISASM_LONG: &str = "Writes a program as a listing.

Reads and checks FILE. Writes its listing to standard output: one instruction a
line, and a label before each target of a jump or call. `bpfdb asm` gives the
same words back.";

pub const DISASM_EXAMPLE: &str = "Example:
  $ bpfdb disasm count.bin
  L0:
  add r0, 1
  jlt r0, 3, L0
  exit";

pub const LINES: &str = "Shows the line of each instruction of a listing or an object";

pub const LINES_LONG: &str = "Shows the line of each instruction of a listing or an object.

Reads the listing FILE. Writes one line an instruction to standard output, with
blanks between: its slot, the line of FILE in which it stands, counted from 1,
and the labels that stand at it. An object is linked, as by link, and
behind the slot stand FILE:LINE of the source, which an object has if it was
compiled with -g, and the function: a hyphen for what the object doesn't tell.
If something is wrong with FILE, a line on standard error says what and where,
and the exit status is 2.";

pub const LINES_EXAMPLE: &str = "Example:
  $ bpfdb lines count.s
  0 1 loop
  1 2
  2 3";

pub const CHECK: &str = "Checks a program";

pub const CHECK_LONG: &str = "Checks a program.

Reads FILE. Writes to standard output how many instructions it has, and in how
many slots of 8 bytes. The first fault is one line on standard error, with its
number and, where it has one, its slot or line. Then the exit status is 2.";

pub const CHECK_EXAMPLE: &str = "Example:
  $ bpfdb check count.s
  ok 3 instructions in 3 slots";

pub const LOAD: &str = "Shows what is made of a program: its size, its maps, its lines";

pub const LOAD_LONG: &str = "Shows what is made of a program: its size, its maps, its lines.

Reads FILE as `run` does, and runs nothing. Writes to standard output how many
instructions and slots the program has, then a line a map: its number, its shape
as --maps has it, the address of its first byte, and its name in an object. Then
the lines of `lines` follow, which say where each instruction stands; a file of
words has none.";

pub const LOAD_EXAMPLE: &str = "Example:
  $ bpfdb load --maps 8x2 count.s
  ok 3 instructions in 3 slots
  map 0: 8x2 at 0x300000000
  0 1 loop
  1 2
  2 3";

pub const LINK: &str = "Makes the words of a program from an ELF object";

pub const LINK_LONG: &str = "Makes the words of a program from an ELF object.

Reads the relocatable object FILE, as `clang -target bpf -c` writes it. Writes
the words of one code section to standard output, 8 bytes a slot, and after them
those of .text where the section calls it: calls have their distances, and loads
of maps the maps' numbers, 0 for the one that stands first in its section. If
debug information (-g) or the section maps has the maps' sizes, they are printed
on standard error as an option --maps. The first thing that is wrong is one line
on standard error, with its number; then the exit status is 2.
With -r FILE and the objects of --with are written as one object, for gdb or to
link again. With -o a file takes what is linked, and standard output nothing;
where the link fails, what the file held stays.";

pub const LINK_EXAMPLE: &str = "Example:
  $ clang -O2 -target bpf -c count.c
  $ bpfdb link -o count.bin count.o
  $ bpfdb link -r --with mock.o -o both.o count.o";

pub const TEST: &str = "Runs the tests of a file";

pub const TEST_LONG: &str = "Runs the tests of a file.

Reads the test file FILE: programs and the results that are expected of them
(docs/TESTS.md describes it). Writes a report in the Test Anything Protocol to
standard output: `ok 1 - NAME` for a test that passes, and what came and what
was wanted for one that doesn't. If a test fails, the exit status is 1. If
something is wrong with FILE, or if it has no test of the name that is asked
for, no test runs; a line on standard error says what and where, and the exit
status is 2.";

pub const TEST_EXAMPLE: &str = "Example:
  $ cat two.test
  -- listing
  mov r0, 2
  exit
  -- name
  two
  -- result
  2
  $ bpfdb test two.test
  1..1
  ok 1 - two";

pub const GDB: &str = "Serves gdb's remote protocol, forwards and backwards";

pub const GDB_LONG: &str = "Serves gdb's remote protocol, forwards and backwards.

Reads FILE, the context, and from standard input what gdb sends. Writes the
answers to standard output. A session is opened as by debug: gdb steps, goes on
and goes back in it, and its monitor obeys a line of a script. The program's
code is at address 0, 8 bytes a slot, and pc counts bytes. docs/GDB.md shows a
session.";

pub const GDB_EXAMPLE: &str = "Example, in gdb:
  (gdb) target remote | bpfdb gdb count.bin
  (gdb) stepi
  (gdb) reverse-stepi
  (gdb) monitor undo";

pub const BATCH: &str = "Runs cases from standard input, a line each";

pub const BATCH_LONG: &str = "Runs cases from standard input, a line each.

A line is WORDS [CONTEXT], both in hexadecimal: the bytes of a program and those
of its context, empty if left out. With - for WORDS the program is FILE's. Each
line is answered by one on standard output, at once: r0, as 0x and hexadecimal
digits, or the fault, the limit of steps or the refusal, as run tells it. So a
fuzzer can send a case, read what it came to, and send the next. No case sees
another; those with the words of the case before run the fastest.";

pub const BATCH_EXAMPLE: &str = "Example:
  $ echo 'b70000002a000000 9500000000000000' | tr -d ' ' | bpfdb batch
  0x2a";

/// FILE of `batch`.
pub const SHARED_PROGRAM: &str = "Program of the lines with - for WORDS";

/// `-m`, `--mem`.
pub const MEM: &str = "File with the context, 0 to 65536 bytes at r1";

pub const MEM_LONG: &str = "File with the context, 0 to 65536 bytes: its address is in r1, its
length in r2. Without it the context is empty, and r1 is 0.
Example: -m packet.bin";

/// `--packet`.
pub const PACKET: &str = "Packet, from 1, of the capture of -m";

pub const PACKET_LONG: &str = "Number of a packet, from 1, of the capture that -m names, of Ethernet
and in pcap's own format: its bytes are the context, as many as were
captured. Without it the context is the whole file.
Example: -m web.pcap --packet 3";

/// `--maps`.
pub const MAPS: &str = "Maps: V bytes, 1 to 256, and N entries, 1 to 4096";

pub const MAPS_LONG: &str = "The program's maps, at most 16, each as VxN: V bytes a value, 1 to
256, and N entries, 1 to 4096; at most 65536 bytes a map. Without it
there are none, and a program that names a map is refused (C12). An
object has maps of its own. Example: --maps 8x2,4x256";

/// `--regs`.
pub const REGS: &str = "Values of registers before the first step";

pub const REGS_LONG: &str = "Values that registers have before the first step: r0 to r9, each once,
and a number, or context, context+N, stack or stack-N for an address:
the context's first byte, or N bytes on, at most 65536; r10 at the
start, or N bytes back, at most 512. They count as no move. Without it
r1 is the context's address, r2 its length, and the others are 0.
Example: --regs r1=0x5,r3=context+4";

/// `--journal`.
pub const JOURNAL: &str = "Journal bytes, 1024 to 16777216";

pub const JOURNAL_LONG: &str =
    "Size of the journal of moves that can be taken back, in bytes, 1024 to
16777216. Most steps take 7 or 16 of them. When it is full the oldest
moves are dropped. `debug` and `gdb` take as many bytes again for
redo. Example: --journal 1048576";

/// `--steps`.
pub const STEPS: &str = "Limit of steps, 1 to 1000000000";

pub const STEPS_LONG: &str = "Most steps of a run, or of one forward command, 1 to 1000000000. At
this limit `run` ends with exit status 1, and a command with the word
limit. Example: --steps 5000";

/// `--from`.
pub const FROM: &str = "First step shown, 1 to 1000000000";

pub const FROM_LONG: &str = "Number of the first step that is shown, 1 to 1000000000. The steps
before it take no more time than in a run. Example: --from 5000";

/// `--count`.
pub const COUNT: &str = "Most steps shown, 1 to 1000000000; all without it";

pub const COUNT_LONG: &str = "Most steps that are shown, 1 to 1000000000. Without it all are, from
the first one on. Example: --count 20";

/// `--branches`.
pub const BRANCHES: &str = "Shows conditional jumps alone, and where each went";

/// `--branches` of `origin`.
pub const DECIDERS: &str = "Tells which branches decided that it came so";

/// `--profile`.
pub const PROFILE: &str = "Tells how often each instruction ran, and no steps";

/// `--questions`.
pub const QUESTIONS: &str = "Lines may ask: origin [WHAT], whynot WHAT";

/// `--calls`.
pub const CALLS: &str = "Tells calls of helpers and others' functions";

/// `--strict`.
pub const STRICT: &str = "Stops before a read of stack that nothing wrote";

/// `--words`.
pub const WORDS: &str = "FILE is raw words, whatever it looks like";

/// `--listing`.
pub const LISTING: &str = "FILE is a listing, whatever its name is";

/// `--object`.
pub const OBJECT: &str = "FILE is an object, whatever it begins with";

/// `--registers`.
pub const REGISTERS: &str = "Machine for gdb: x86, riscv or bpf";

pub const REGISTERS_LONG: &str =
    "Machine that gdb takes this one for: x86 for any gdb on a PC, riscv
for gdb-multiarch, bpf for a gdb that is built for BPF. r0 to r10 are
shown under their own names, too. Example: --registers riscv";

/// `--section`.
pub const SECTION: &str = "Code section to be linked; without it the only one";

pub const SECTION_LONG: &str = "Name of the code section to be linked, at most 255 bytes. Without it
that is the only one besides .text, or else .text; of several the one
that has the function of --entry.
Example: --section xdp";

/// `--entry`.
pub const ENTRY: &str = "Function to begin at; without it the only one";

pub const ENTRY_LONG: &str = "Name of the function of that section at which the program begins.
Without it that is the only one that isn't static. Up to 16 times: the
program calls these functions, of any sections, in turn. Behind a name
and an @ may stand the place of its context, in bytes.
Example: --entry enter --entry exit@168";

/// `--entries`.
pub const ENTRIES: &str = "Entries of a map whose size a loader sets";

pub const ENTRIES_LONG: &str = "Name of a map of the object, an =, and how many entries it has, 1
to 4294967295, whatever the object says. Up to 16 times, one a map.
Example: --entries flows=64";

/// `--helper`.
pub const HELPER: &str = "Helpers whose calls a constant answers";

pub const HELPER_LONG: &str =
    "Helpers whose calls are answered by a constant in r0, at most 16: each
its number or its name in the kernel, an =, and -2147483648 to
2147483647. Nothing else happens at such a call.
Example: --helper 5=0,get_current_pid_tgid=-1";

/// `--struct`.
pub const STRUCT: &str = "The kernel's struct that the entry takes";

pub const STRUCT_LONG: &str = "The kernel's struct that the entry takes: xdp, its xdp_md, or tc, its
__sk_buff. The words before the program make it of the packet that is
the context, and what goes by its address is rewritten. Without it the
object's BTF tells it, by the entry's type. With none r1 has the
context's address. Example: --struct xdp";

/// `--fields`.
pub const FIELDS: &str = "Whether fields of CO-RE may stay as compiled";

pub const FIELDS_LONG: &str = "What becomes of fields that the object asks its loader to move
(CO-RE): compiled leaves them where they were compiled, which is told,
and is so without it; strict refuses them. Example: --fields strict";

/// `--no-linux`.
pub const NO_LINUX: &str = "Never links Linux's helpers in by itself";

/// `--faithful`.
pub const FAITHFUL: &str = "Refuses what answers otherwise than in Linux";

/// `--with`.
pub const WITH: &str = "Object with functions that FILE's code calls";

pub const WITH_LONG: &str = "Object with functions that answer what FILE's code calls: a call of a
helper of the kernel becomes a call of its function of the helper's
name, as bpf_ktime_get_ns, and a symbol that FILE leaves undefined is
its symbol of that name. If it has bpf_map_lookup_elem, maps of any
kind are data of its own. Up to 16 times: the first one that has a
function answers. Example: --with mock.o --with bpfdb-linux.o";

/// `-r`, `--relocatable`.
pub const RELOCATABLE: &str = "Writes FILE and --with as one object, no program";

/// `-o`, `--output`.
pub const OUTPUT: &str = "File for what is linked, not standard output";

pub const OUTPUT_LONG: &str = "File for what is linked; nothing is on standard output then. What
stands in it is lost, but stays where the link fails.
Example: -o count.bin";

/// `--script`.
pub const SCRIPT: &str = "Script that is obeyed in place of a run";

pub const SCRIPT_LONG: &str = "Script that is obeyed in place of a run, as `debug` obeys it: its
replies are not shown, and WHAT is asked about the state where it
leaves the session. --steps is then the limit of each of its commands.
If a line is refused, only its refusal is printed.
Example: --script steps";

/// `--lines`.
pub const LINES_MOST: &str = "Most lines told, 1 to 1000000000";

pub const LINES_MOST_LONG: &str =
    "Most lines of moves in an answer, 1 to 1000000000. If there are more,
the last line is `cut: there are more lines`, and the exit status is
1. Example: --lines 20";

/// `--addresses`.
pub const ADDRESSES: &str = "Follows the registers that make addresses, too";

/// `--alone`.
pub const ALONE: &str = "Leaves out where the values came from";

/// `--other-mem PATH`.
pub const OTHER_MEM: &str = "Second context, a file of 0 to 65536 bytes";

pub const OTHER_MEM_LONG: &str = "Second context, a file of 0 to 65536 bytes: the program runs on
it, too. It can't be used with OTHER";

/// `--other-packet N`.
pub const OTHER_PACKET: &str = "Packet, from 1, of the capture of --other-mem";

pub const OTHER_PACKET_LONG: &str =
    "Number of a packet, from 1, of the capture that --other-mem names,
as --packet is of that of -m";

/// `--trace PATH`.
pub const OTHER_TRACE: &str = "Trace of another machine, in place of a second run";

pub const OTHER_TRACE_LONG: &str = "Trace of another machine, in place of a second run: lines as
`trace` writes them; or of each step the slot and r0 to r10 before
it, in decimal or as 0x.., with '-' for what isn't told. Lines that
begin with '#' are skipped. It goes with neither OTHER nor --other-mem";

/// `--writes`.
pub const WRITES: &str = "Compares what both runs leave, and not their steps";

/// OTHER.
pub const OTHER: &str = "Second program: an object, a listing (NAME.s), or raw words";

/// `--only NAME`.
pub const ONLY: &str = "Runs the tests of this name alone";

pub const ONLY_LONG: &str = "Runs the tests of this name alone, all that have it; they are numbered
from 1. If there is none, no test runs, and the exit status is 2.
Example: --only 'a short header is dropped'";

/// `--show PART`.
pub const SHOW: &str = "Shows program, context, options or script of one test";

pub const SHOW_LONG: &str = "Shows a part of one test, and runs none: program (its raw words),
context (its bytes), options (those that its program needs, one a
line) or script (the commands that lead to where its program ends).
The test is the one that --only names, or the only one of FILE.
`bpfdb-show NAME FILE` makes files of all four, and says how to debug
the test. Example: --show program";

/// `--cover`.
pub const COVER: &str = "Tells which instructions and branches no test ran";

/// `--cover-info`.
pub const COVER_INFO: &str = "Writes what ran as lcov reads it, and the report to stderr";

/// `--json`.
pub const JSON: &str = "Writes an object of JSON for each line";

/// `--dot`.
pub const DOT: &str = "Writes the answer as a graph for graphviz";

/// `--anywhere`.
pub const ANYWHERE: &str = "Reads files that tests name also outside of their folder";

/// WHAT.
pub const WHAT: &str = "r0 to r9, or ADDRESS:COUNT; without it r0, or a fault's address";

/// WHAT of `whynot`.
pub const GOAL: &str = "Slot, or slots with commas between; label; function, FILE:LINE, =VALUE";

/// FILE.
pub const PROGRAM: &str = "Program: an object of clang, a listing (NAME.s), or raw words";

pub const LISTING_FILE: &str = "Listing to be assembled";

pub const LINES_FILE: &str = "Listing (docs/LISTING.md), or an object";

pub const OBJECT_FILE: &str = "Relocatable ELF object for BPF";

pub const TEST_FILE: &str = "Test file (docs/TESTS.md)";
