//! Scripts that are obeyed for where they lead: their replies are written nowhere.
ghost use Rattle.std.specs.Prelude.{◌≡◌};
ghost use Rattle.bpf_journal.specs.Tracks.{Track, ring_room};
ghost use Rattle.bpf_session.specs.Output.{is_quit};
ghost use Rattle.bpf_session.specs.Sessions.{bounds_of};
ghost use Rattle.bpfdb_jobs.specs.Obeying.{ObeysCommand, ObeysLine, ObeysScript};
ghost use Rattle.bpfdb_jobs.specs.Origins.{Arrival};
ghost use Rattle.counted_io.specs.Lines.{lines};

use bpf_journal::RingKeeper;
use bpf_remote::moves_after;
use bpf_session::Session;
use bpf_session::laws::no_answer_is_of_memory;
use bpfdb_script::{Command, Refusal, parse_command};
use counted_io::sides;

/// Obeys the lines of a script one after another, up to its end, the first `quit` or the first line
/// that is refused. Answers how many moves then lie before the session's state, where none did
/// before, or the refusal.
pub fn obey_script(session: &mut Session<RingKeeper>, script: &[u8]) -> Result<u64, Refusal>
    ensures { (t : Track) →
        ObeysScript session.old session.new t (lines script.now) 0 result }
{
    let mut rest = script;
    let mut moves = 0;
    while !rest.is_empty() {
        let (line, others) = sides(rest, b'\n');
        match obey_line(session, line, moves) {
            Ok(Some(after)) => moves = after,
            Ok(None) => return Ok(moves),
            Err(refusal) => return Err(refusal),
        }
        rest = others;
    }
    Ok(moves)
}

/// Obeys a line behind so many moves. Answers how many there are then, None where it ends the
/// script, or why it is refused.
fn obey_line(
    session: &mut Session<RingKeeper>,
    line: &[u8],
    moves: u64,
) -> Result<Option<u64>, Refusal>
    ensures leads { (t : Track) (on : Arrival → _) →
        ObeysLine session.old session.new t line.now moves on result }
    ensures bounds { bounds_of ring_room session.new ≡ bounds_of ring_room session.old }
{
    match parse_command(line) {
        Ok(Some(command)) => obey_command(session, &command, moves),
        Ok(None) => Ok(Some(moves)),
        Err(refusal) => Err(refusal),
    }
}

/// Obeys a command, as `obey_line` does its line.
fn obey_command(
    session: &mut Session<RingKeeper>,
    command: &Command,
    moves: u64,
) -> Result<Option<u64>, Refusal>
    ensures leads { (t : Track) (on : Arrival → _) →
        ObeysCommand session.old session.new t command.now moves on result }
    ensures bounds { bounds_of ring_room session.new ≡ bounds_of ring_room session.old }
{
    no_answer_is_of_memory::<RingKeeper>();
    if is_quit(command) {
        return Ok(None);
    }
    let answer = session.apply(command);
    let after = moves_after(&answer, command, moves);
    match answer {
        Ok(_) => Ok(Some(after)),
        Err(refusal) => Err(refusal),
    }
}

/// Whether a command ends the script.
fn is_quit(command: &Command) -> bool
    ensures { result ≡ is_quit command.now }
{
    match command {
        Command::Quit => true,
        _ => false,
    }
}
