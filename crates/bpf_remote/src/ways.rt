//! The ways that gdb lets the machine go.
ghost use Rattle.std.specs.Prelude.{◌≡◌, ◌&&◌, is_none};
ghost use Rattle.bpf_steps.specs.State.{depth};
ghost use Rattle.bpf_remote.specs.Ways.{Goes, is_break, is_done, is_passed, is_within, moves_of, runs, wants_again};

use crate::answer::{Answer, Halt, answer_of_move};
use crate::moves::moves_after;
use crate::request::Request;
use bpf_agent::Conditions;
use bpf_journal::Keeper;
use bpf_machine::Cpu;
use bpf_session::{Command, Goal, Refusal, Reply, Session, Target, Why};

/// Whether a command goes on until something stops the machine.
fn runs(command: &Command) -> bool
    ensures { result ≡ runs command.now }
{
    match command {
        Command::Forward(Goal::Continue) => true,
        _ => false,
    }
}

/// Whether a command stopped at a breakpoint.
fn is_break(said: &Result<Reply, Refusal>) -> bool
    ensures { result ≡ is_break said.now }
{
    match said {
        Ok(
            Reply::Forward {
                why: Why::Break,
                ..
            },
        ) => true,
        Ok(
            Reply::Back {
                why: Why::Break,
                ..
            },
        ) => true,
        _ => false,
    }
}

/// Whether a command made the steps that it was given for.
fn is_done(said: &Result<Reply, Refusal>) -> bool
    ensures { result ≡ is_done said.now }
{
    match said {
        Ok(Reply::Forward { why: Why::Done, .. }) => true,
        _ => false,
    }
}

/// How many moves a command made or took back.
fn moves_of(said: &Result<Reply, Refusal>) -> u64
    ensures { result ≡ moves_of said.now }
{
    match said {
        Ok(Reply::Forward { steps, .. }) => *steps,
        Ok(Reply::Back { moves, .. }) => *moves,
        _ => 0,
    }
}

/// Whether a breakpoint is passed, at which a command stopped: its condition doesn't hold.
fn is_passed(conditions: &Conditions, said: &Result<Reply, Refusal>, cpu: &Cpu) -> bool
    ensures { result ≡ is_passed conditions.now said.now cpu.now }
{
    if is_break(said) {
        conditions.is_false(cpu)
    } else {
        false
    }
}

/// Whether pc lies within these addresses, the last not among them, at this depth of calls.
fn is_within(from: u64, to: u64, deep: usize, cpu: &Cpu) -> bool
    ensures { result ≡ is_within from to deep cpu.now }
{
    let address = 8 * u64::from(cpu.pc());
    if address < from {
        return false;
    }
    if address >= to {
        return false;
    }
    cpu.depth() == deep
}

/// Whether a request wants its command again, which answered this.
fn wants_again(
    request: &Request,
    conditions: &Conditions,
    deep: usize,
    said: &Result<Reply, Refusal>,
    cpu: &Cpu,
) -> bool
    ensures { result ≡ wants_again request.now conditions.now deep said.now cpu.now }
{
    match request {
        Request::Move(Command::Forward(Goal::Continue)) => is_passed(conditions, said, cpu),
        Request::Move(Command::Back(Target::Continue)) => is_passed(conditions, said, cpu),
        Request::Range { from, to } => {
            if is_done(said) || is_passed(conditions, said, cpu) {
                is_within(*from, *to, deep, cpu)
            } else {
                false
            }
        }
        _ => false,
    }
}

/// Whether another round follows behind one: none does where a watched byte changed.
fn follows(changed: Option<u64>, again: bool) -> bool
    ensures { result ≡ (is_none changed && again) }
{
    if changed.is_some() { false } else { again }
}

/// Goes a way: gives the command, and again as long as the request wants it and fewer moves than the
/// session's limit were made, each command counted as one at least. `moves` lay before the state.
/// Says how it is answered, and how many lie before the state then.
pub(crate) fn go<K: Keeper>(
    session: &mut Session<K>,
    request: &Request,
    command: &Command,
    conditions: &Conditions,
    mut moves: u64,
) -> (Answer, u64)
    ensures { Goes K.holds K.refused K.room command.now
        (wants_again request.now conditions.now (depth session.old.moment.state))
        (session.old, moves) (session.new, result.1) result.0 }
{
    let limit = session.limit();
    let deep = session.cpu().depth();
    let mut made = 0u64;
    'rounds: while made < limit {
        let sight = session.sight();
        let said = session.apply(command);
        let changed = sight.first_changed(session.cpu());
        moves = moves_after(&said, command, moves);
        made = made.saturating_add(moves_of(&said).max(1));
        let again = wants_again(request, conditions, deep, &said, session.cpu());
        if !follows(changed, again) {
            let status = session.cpu().status();
            return (answer_of_move(&said, runs(command), status, changed), moves);
        }
    }
    (Answer::Halted(Halt::Limit), moves)
}
