ghost use Rattle.std.specs.Prelude.{◌≡◌, MatchResult};
ghost use Rattle.std.specs.Process.{exit_status};

use std::fmt;
use std::io::Eprint;
use std::process::ExitCode;

// The status that a program ends with. Its trouble, if there is any, is told in one line on standard
// error, which begins with the program's name.
pub fn exit_code<E: fmt::Display + Drop>(
    rt: &impl Eprint,
    program: &str,
    outcome: Result<(), E>,
) -> ExitCode
    ensures { MatchResult outcome (λ done. exit_status result ≡ 0) (λ trouble. exit_status result ≡ 1) }
{
    let Err(trouble) = outcome else {
        return ExitCode::SUCCESS;
    };
    // Where the message cannot be written either, the status alone tells.
    let _ = eprintln!(rt; "{program}: {trouble:#}");
    ExitCode::FAILURE
}
