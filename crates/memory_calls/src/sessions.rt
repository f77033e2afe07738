//! Whole sessions, over a list or over a ring of entries: of the files and numbers of the command
//! line, with a script from standard input.
//!
//! The words are WAY PROGRAM CONTEXT MAPS JOURNAL LIMIT, and STEPS that are taken before the
//! session, if there are any, and FIRST: which of three ways to step the first one goes, 0 to 2; the
//! next one goes the next. CONTEXT is `-` where there is none; MAPS is empty then. WAY is `list`
//! or `ring`. It is `list-again` or `ring-again` where the session is closed after each command and
//! opened again over what it gave, a ring's over a ring that was taken out and put back. It is
//! `ring-bytes` where each empty line asks for the ring's bytes, and `list-gdb` or `ring-gdb` where
//! packets come in.
//!
//! Where a read or a write fails, it is told where the machine stands then.
ghost use Rattle.std.specs.Prelude.{◌≡◌, [], IfSome};
ghost use Rattle.bpf_journal.specs.Histories.{HasHistory};
ghost use Rattle.bpf_journal.specs.Tracks.{RingHolds, ring_room};

use crate::telling::{Lack, said};
use crate::word;
use bpf_isa::{MapTable, Reg, check};
use bpf_journal::{Keeper, ListKeeper, RingKeeper};
use bpf_machine::{Cpu, Ended};
use bpf_remote::{Layout, Target, Wanted, serve};
use bpf_session::{Count, RunFault, Session, run};
use bpfdb_files::{FileKind, read_kind};
use counted_io::{Counted, put};
use std::alloc::Global;
use std::fs;
use std::io::{Read, Write};

/// What is played: in which way, over which keeper, and with what limit of steps.
#[derive(Clone, Copy)]
struct Way {
    size: usize,
    limit: Count,
    again: bool,
    bytes: bool,
    gdb: bool,
}

/// `session`: the replies to the script that comes in.
pub fn play_words<W: Write>(
    rt: &HostRuntime,
    words: &[String],
    output: &mut Counted<W>,
) -> Result<(), Lack> {
    let name = word(words, 1);
    let (keeper, way) = name.split_once('-').unwrap_or((name, ""));
    let Some(way) = way_of(words, way) else {
        return Err(Lack::NotReached);
    };
    let Some(cpu) = machine(rt, words) else {
        return Err(Lack::NotReached);
    };
    match keeper {
        "list" => {
            let session = list_session(rt.alloc(), cpu, way.size, way.limit);
            play_in(rt, session, way, output)
        }
        "ring" => {
            let session = ring_session(rt.alloc(), cpu, way.size, way.limit);
            play_ring(rt, session, way, output)
        }
        _ => Err(Lack::NotReached),
    }
}

/// The way of a name, with the numbers of the words.
fn way_of(words: &[String], name: &str) -> Option<Way> {
    Some(Way {
        size: number(words, 5)? as usize,
        limit: Count::new(number(words, 6)?)?,
        again: name == "again",
        bytes: name == "bytes",
        gdb: name == "gdb",
    })
}

/// The number of one of the words.
fn number(words: &[String], at: usize) -> Option<u64> {
    word(words, at).parse::<u64>().ok()
}

/// The bytes that a reader gives; none where it fails, or memory runs out.
pub fn bytes_of<R: Read + Drop>(alloc: Global, reader: R, kind: FileKind) -> Option<Vec<u8>> {
    match read_kind(alloc, &mut Counted::new(reader), kind) {
        Ok(bytes) => bytes,
        Err(_) => None,
    }
}

/// The bytes of a file.
fn bytes_at(rt: &HostRuntime, path: &str, kind: FileKind) -> Option<Vec<u8>> {
    match fs::open(rt, path) {
        Ok(file) => bytes_of(rt.alloc(), file, kind),
        Err(_) => None,
    }
}

/// The bytes of a context's file; of none there are none.
fn context_at(rt: &HostRuntime, path: &str) -> Option<Vec<u8>> {
    if path == "-" {
        return Some(Vec::new(rt.alloc()));
    }
    bytes_at(rt, path, FileKind::Context)
}

/// The maps of a text, which is empty where there are none.
pub fn maps_of(text: &str) -> Option<MapTable> {
    if text.is_empty() {
        return Some(MapTable::empty());
    }
    MapTable::parse(text.as_bytes()).ok()
}

/// The machine of a program's words, with these maps and the bytes of a context, before its first
/// step.
pub fn machine_of(alloc: Global, words: &[u8], maps: &MapTable, context: &[u8]) -> Option<Cpu> {
    match check(alloc, words, maps) {
        Ok(program) => Cpu::open(alloc, program, context).ok(),
        Err(_) => None,
    }
}

/// The machine that the words of the command line name, before its first step.
fn first_machine(rt: &HostRuntime, words: &[String]) -> Option<Cpu> {
    let maps = maps_of(word(words, 4))?;
    let program = bytes_at(rt, word(words, 2), FileKind::Program)?;
    let context = context_at(rt, word(words, 3))?;
    machine_of(rt.alloc(), &program, &maps, &context)
}

/// The machine that the words name, after the steps that they name.
fn machine(rt: &HostRuntime, words: &[String]) -> Option<Cpu> {
    let mut cpu = first_machine(rt, words)?;
    let first = number(words, 8).unwrap_or(0);
    let steps = number(words, 7).unwrap_or(0);
    if goes_on(&mut cpu, first, steps) {
        Some(cpu)
    } else {
        None
    }
}

/// Takes so many steps, each in another way than the one before. Tells whether there were as many.
fn goes_on(cpu: &mut Cpu, first: u64, steps: u64) -> bool {
    for number in 0..steps {
        if !goes(cpu, first.saturating_add(number) % 3) {
            return false;
        }
    }
    true
}

/// Takes a step: in one call, in one that makes no entry, or by its halves. Tells whether there was
/// one.
fn goes(cpu: &mut Cpu, way: u64) -> bool {
    match way {
        0 => cpu.step().is_ok(),
        1 => cpu.advance().is_ok(),
        _ => match cpu.look() {
            Ok(change) => {
                let _entry = cpu.entry(&change);
                cpu.commit(&change);
                true
            }
            Err(Ended) => false,
        },
    }
}

/// An empty ring for the moves that will be taken back from a keeper.
fn ring_for<K: Keeper>(alloc: Global, keeper: &K) -> Option<RingKeeper>
    ensures empty { IfSome result (λ ring. RingHolds ring []) }
    ensures size { IfSome result (λ ring. ring_room ring ≡ K.room keeper.now) }
{
    match RingKeeper::open(alloc, keeper.capacity()) {
        Ok(ring) => Some(ring),
        Err(_) => None,
    }
}

/// A session over a machine and a keeper.
fn opened<K: Keeper + Drop>(alloc: Global, cpu: Cpu, keeper: K, limit: Count) -> Option<Session<K>>
    requires past { HasHistory K.holds keeper cpu }
{
    let redo = ring_for(alloc, &keeper)?;
    Some(Session::open(cpu, keeper, redo, limit.get()))
}

/// A session over a list.
pub fn list_session(
    alloc: Global,
    cpu: Cpu,
    size: usize,
    limit: Count,
) -> Option<Session<ListKeeper>> {
    match ListKeeper::open(alloc, size) {
        Ok(keeper) => opened(alloc, cpu, keeper, limit),
        Err(_) => None,
    }
}

/// A session over a ring.
fn ring_session(alloc: Global, cpu: Cpu, size: usize, limit: Count) -> Option<Session<RingKeeper>> {
    match RingKeeper::open(alloc, size) {
        Ok(keeper) => opened(alloc, cpu, keeper, limit),
        Err(_) => None,
    }
}

/// Plays the script over a ring, whose bytes are told or not.
fn play_ring<W: Write>(
    rt: &HostRuntime,
    session: Option<Session<RingKeeper>>,
    way: Way,
    output: &mut Counted<W>,
) -> Result<(), Lack> {
    if way.bytes {
        play_told(rt, session, output)
    } else {
        play_in(rt, session, way, output)
    }
}

/// Plays the script over a ring, whose bytes are told where the script asks for them.
fn play_told<W: Write>(
    rt: &HostRuntime,
    session: Option<Session<RingKeeper>>,
    output: &mut Counted<W>,
) -> Result<(), Lack> {
    let Some(mut session) = session else {
        return Err(Lack::NotReached);
    };
    let bytes = bytes_of(rt.alloc(), rt.reader(), FileKind::Source);
    match text_of(&bytes) {
        Some(text) => tell_lines(rt.alloc(), &mut session, text, output),
        None => Err(Lack::NotReached),
    }
}

/// Plays lines over a ring, whose bytes an empty one asks for.
fn tell_lines<W: Write>(
    alloc: Global,
    session: &mut Session<RingKeeper>,
    text: &str,
    output: &mut Counted<W>,
) -> Result<(), Lack> {
    for line in text.lines() {
        tell_line(alloc, session, line, output)?;
    }
    Ok(())
}

/// Plays a line over a ring, or tells the ring's bytes.
fn tell_line<W: Write>(
    alloc: Global,
    session: &mut Session<RingKeeper>,
    line: &str,
    output: &mut Counted<W>,
) -> Result<(), Lack> {
    if line.is_empty() {
        tell_bytes(alloc, session.keeper(), output)
    } else {
        play(session, line.as_bytes(), output)
    }
}

/// Plays the script in a session, if there is one.
fn play_in<K: Anew, W: Write>(
    rt: &HostRuntime,
    session: Option<Session<K>>,
    way: Way,
    output: &mut Counted<W>,
) -> Result<(), Lack> {
    let Some(mut session) = session else {
        return Err(Lack::NotReached);
    };
    if way.again {
        return play_script(rt, session, way.limit, output);
    }
    if way.gdb {
        return play_packets(rt, &mut session, output);
    }
    let ran = run(&mut session, &mut Counted::new(rt.reader()), output);
    played(ran, session.cpu())
}

/// Plays packets in a session.
fn play_packets<K: Keeper, W: Write>(
    rt: &HostRuntime,
    session: &mut Session<K>,
    output: &mut Counted<W>,
) -> Result<(), Lack> {
    let Ok(mut wanted) = Wanted::new(rt.alloc()) else {
        return Err(Lack::NotReached);
    };
    let served = serve(
        rt.alloc(),
        Target {
            layout: Layout::Bpf,
            names: None,
            places: None,
        },
        session,
        &mut wanted,
        &mut Counted::new(rt.reader()),
        output,
    );
    played(served, session.cpu())
}

/// How a run has ended, which leaves this machine.
fn played(ran: Result<(), RunFault>, cpu: &Cpu) -> Result<(), Lack> {
    match ran {
        Ok(()) => Ok(()),
        Err(RunFault::Read) => Err(Lack::Unread(cpu.pc(), first_register(cpu))),
        Err(RunFault::Write) => Err(Lack::Unwritten(cpu.pc(), first_register(cpu))),
    }
}

/// The number in r0.
fn first_register(cpu: &Cpu) -> u64 {
    match Reg::new(0) {
        Some(register) => cpu.reg(register),
        None => 0,
    }
}

/// Plays a text in a session.
pub fn play<K: Keeper, W: Write>(
    session: &mut Session<K>,
    text: &[u8],
    output: &mut Counted<W>,
) -> Result<(), Lack> {
    let ran = run(session, &mut Counted::new(text), output);
    played(ran, session.cpu())
}

/// Plays the lines of the script, each in a session of its own.
fn play_script<K: Anew, W: Write>(
    rt: &HostRuntime,
    session: Session<K>,
    limit: Count,
    output: &mut Counted<W>,
) -> Result<(), Lack> {
    let bytes = bytes_of(rt.alloc(), rt.reader(), FileKind::Source);
    match text_of(&bytes) {
        Some(text) => play_lines(rt.alloc(), session, text, limit, output),
        None => Err(Lack::NotReached),
    }
}

/// The text of bytes, if there are some.
pub fn text_of(bytes: &Option<Vec<u8>>) -> Option<&str> {
    match bytes {
        Some(bytes) => str::from_utf8(bytes).ok(),
        None => None,
    }
}

/// Plays lines, each in a session over the machine and the keeper of the one before.
fn play_lines<K: Anew, W: Write>(
    alloc: Global,
    mut session: Session<K>,
    text: &str,
    limit: Count,
    output: &mut Counted<W>,
) -> Result<(), Lack> {
    for line in text.lines() {
        session = play_line(alloc, session, line, limit, output)?;
    }
    Ok(())
}

/// Plays a line, and answers the session behind it.
fn play_line<K: Anew, W: Write>(
    alloc: Global,
    mut session: Session<K>,
    line: &str,
    limit: Count,
    output: &mut Counted<W>,
) -> Result<Session<K>, Lack> {
    match play(&mut session, line.as_bytes(), output) {
        Ok(()) => again(alloc, session, limit),
        Err(lack) => Err(lack),
    }
}

/// The session over the machine and the keeper of another one.
fn again<K: Anew>(alloc: Global, session: Session<K>, limit: Count) -> Result<Session<K>, Lack> {
    let (cpu, keeper) = session.close();
    let keeper = keeper.anew(&cpu);
    match opened(alloc, cpu, keeper, limit) {
        Some(session) => Ok(session),
        None => Err(Lack::NotReached),
    }
}

/// A keeper that is taken apart and put together again, where it has parts.
trait Anew: Keeper + Drop {
    /// A keeper of the same moves.
    fn anew(self, cpu: &Cpu) -> Self
        requires { HasHistory Self.holds self cpu.now }
        ensures { HasHistory Self.holds result cpu.now };
}

impl Anew for ListKeeper {
    fn anew(self, _cpu: &Cpu) -> ListKeeper {
        self
    }
}

impl Anew for RingKeeper {
    fn anew(self, cpu: &Cpu) -> RingKeeper {
        let _cpu = cpu;
        let ring = self.into_ring();
        RingKeeper::from_ring(ring)
    }
}

/// Writes the bytes of a ring in a line.
fn tell_bytes<W: Write>(
    alloc: Global,
    ring: &RingKeeper,
    output: &mut Counted<W>,
) -> Result<(), Lack> {
    match digits_of(alloc, ring) {
        Some(digits) => {
            let told = put(output, Ok(()), b"bytes ");
            let told = put(output, told, digits.as_bytes());
            said(put(output, told, b"\n"))
        }
        None => Err(Lack::Memory),
    }
}

/// The bytes of a ring in hexadecimal.
fn digits_of(alloc: Global, ring: &RingKeeper) -> Option<String> {
    hex::encode(alloc, &bytes_in(alloc, ring)?).ok()
}

/// The bytes of a ring, the oldest first.
fn bytes_in(alloc: Global, ring: &RingKeeper) -> Option<Vec<u8>> {
    let mut bytes = Vec::new(alloc);
    for index in 0..=ring.capacity() {
        match ring.byte(index) {
            Some(byte) => bytes.push(byte).ok()?,
            None => break,
        }
    }
    Some(bytes)
}
