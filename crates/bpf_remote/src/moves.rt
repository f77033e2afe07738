//! How many moves lie before the state of a connection.
ghost use Rattle.std.specs.Prelude.{◌≡◌};
ghost use Rattle.bpf_remote.specs.Moves.{made_by, moves_after};

use bpf_session::{Command, Refusal, Reply};

/// How many moves lie before the state behind a command, by its answer.
pub fn moves_after(said: &Result<Reply, Refusal>, command: &Command, moves: u64) -> u64
    ensures { result ≡ moves_after said.now command.now moves }
{
    match said {
        Ok(Reply::Forward { steps, .. }) => moves.saturating_add(*steps),
        Ok(Reply::Back { moves: taken, .. }) => moves.saturating_sub(*taken),
        Ok(Reply::Redone { moves: made, .. }) => moves.saturating_add(*made),
        Ok(Reply::Ok) => moves.saturating_add(made_by(command)),
        _ => moves,
    }
}

/// How many moves a command makes that is just done.
fn made_by(command: &Command) -> u64
    ensures { result ≡ made_by command.now }
{
    match command {
        Command::Edit(_) => 1,
        _ => 0,
    }
}
