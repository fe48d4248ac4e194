//! The program's command.

ghost use Rattle.std.specs.Prelude.{◌≡◌, IfOk, false, codes};
ghost use Rattle.clap.specs.Words.{app_of, new_app, with_rule, with_subcommand};
ghost use Rattle.clap.specs.declared.builder.command.Command.TheViews.{out-Command};
ghost use Rattle.lk_command.specs.Command.{check, leancheck, make, option, recheck, replay, required_option, session, trace, trial, trim, with_callers, with_checks, with_options, with_sample, with_steps, with_writers};

use clap::{Arg, Command};
use std::alloc::{AllocError, Global};

/// Adds an option with one value.
fn with_option<'a>(
    alloc: Global,
    command: Command<'a>,
    name: &'a str,
) -> Result<Command<'a>, AllocError>
    requires { (out-Command command).has_globals ≡ false }
    ensures app { IfOk result (λ c. app_of c ≡ with_rule (app_of command.entry)
        (option name.entry.now)) }
    ensures local { IfOk result (λ c. (out-Command c).has_globals ≡ false) }
{
    command.arg(Arg::new(alloc, name).long(name))
}

/// Adds an option with one value, which has to be given.
fn with_required<'a>(
    alloc: Global,
    command: Command<'a>,
    name: &'a str,
) -> Result<Command<'a>, AllocError>
    requires { (out-Command command).has_globals ≡ false }
    ensures app { IfOk result (λ c. app_of c ≡ with_rule (app_of command.entry)
        (required_option name.entry.now)) }
    ensures local { IfOk result (λ c. (out-Command c).has_globals ≡ false) }
{
    command.arg(Arg::new(alloc, name).long(name).required(true))
}

/// Adds the options that say how many check at one time, and how many steps a unit may take.
fn with_callers<'a>(alloc: Global, command: Command<'a>) -> Result<Command<'a>, AllocError>
    requires { (out-Command command).has_globals ≡ false }
    ensures app { IfOk result (λ c. app_of c ≡ with_callers (app_of command.entry)) }
    ensures local { IfOk result (λ c. (out-Command c).has_globals ≡ false) }
{
    let command = with_option(alloc, command, "workers")?;
    with_option(alloc, command, "steps")
}

/// Adds the options that say how a check is to go.
fn with_options<'a>(alloc: Global, command: Command<'a>) -> Result<Command<'a>, AllocError>
    requires { (out-Command command).has_globals ≡ false }
    ensures app { IfOk result (λ c. app_of c ≡ with_options (app_of command.entry)) }
    ensures local { IfOk result (λ c. (out-Command c).has_globals ≡ false) }
{
    let command = with_callers(alloc, command)?;
    let command = with_option(alloc, command, "memo")?;
    with_option(alloc, command, "allow")
}

/// Adds the options that say which file is to be made.
fn with_sample<'a>(alloc: Global, command: Command<'a>) -> Result<Command<'a>, AllocError>
    requires { (out-Command command).has_globals ≡ false }
    ensures app { IfOk result (λ c. app_of c ≡ with_sample (app_of command.entry)) }
    ensures local { IfOk result (λ c. (out-Command c).has_globals ≡ false) }
{
    let command = with_required(alloc, command, "units")?;
    with_required(alloc, command, "seed")
}

/// The subcommand `check`.
fn check_command<'a>(alloc: Global) -> Result<Command<'a>, AllocError>
    ensures app { IfOk result (λ c. app_of c ≡ check) }
    ensures local { IfOk result (λ c. (out-Command c).has_globals ≡ false) }
{
    with_options(alloc, Command::new(alloc, "check"))
}

/// The subcommand `make`.
fn make_command<'a>(alloc: Global) -> Result<Command<'a>, AllocError>
    ensures app { IfOk result (λ c. app_of c ≡ make) }
    ensures local { IfOk result (λ c. (out-Command c).has_globals ≡ false) }
{
    with_sample(alloc, Command::new(alloc, "make"))
}

/// The subcommand `trial`.
fn trial_command<'a>(alloc: Global) -> Result<Command<'a>, AllocError>
    ensures app { IfOk result (λ c. app_of c ≡ trial) }
    ensures local { IfOk result (λ c. (out-Command c).has_globals ≡ false) }
{
    let command = with_sample(alloc, Command::new(alloc, "trial"))?;
    with_options(alloc, command)
}

/// The command with the subcommand `check`.
fn with_check<'a>(alloc: Global) -> Result<Command<'a>, AllocError>
    ensures app { IfOk result (λ c. app_of c
        ≡ with_subcommand (new_app (codes "leancheck")) check.top) }
{
    let check = check_command(alloc)?;
    Command::new(alloc, "leancheck").subcommand(check)
}

/// The same with `make`.
fn with_make<'a>(alloc: Global) -> Result<Command<'a>, AllocError>
    ensures app { IfOk result (λ c. app_of c
        ≡ with_subcommand (with_subcommand (new_app (codes "leancheck")) check.top) make.top) }
{
    let make = make_command(alloc)?;
    with_check(alloc)?.subcommand(make)
}

/// The subcommand `trim`.
fn trim_command<'a>(alloc: Global) -> Result<Command<'a>, AllocError>
    ensures app { IfOk result (λ c. app_of c ≡ trim) }
    ensures local { IfOk result (λ c. (out-Command c).has_globals ≡ false) }
{
    with_required(alloc, Command::new(alloc, "trim"), "name")
}

/// The subcommand of this name, whose one option says how many steps a unit may take.
fn steps_command<'a>(alloc: Global, name: &'a str) -> Result<Command<'a>, AllocError>
    ensures app { IfOk result (λ c. app_of c ≡ with_steps name.entry.now) }
    ensures local { IfOk result (λ c. (out-Command c).has_globals ≡ false) }
{
    with_option(alloc, Command::new(alloc, name), "steps")
}

/// The subcommand `trace`.
fn trace_command<'a>(alloc: Global) -> Result<Command<'a>, AllocError>
    ensures app { IfOk result (λ c. app_of c ≡ trace) }
    ensures local { IfOk result (λ c. (out-Command c).has_globals ≡ false) }
{
    steps_command(alloc, "trace")
}

/// The subcommand `replay`.
fn replay_command<'a>(alloc: Global) -> Result<Command<'a>, AllocError>
    ensures app { IfOk result (λ c. app_of c ≡ replay) }
    ensures local { IfOk result (λ c. (out-Command c).has_globals ≡ false) }
{
    Ok(Command::new(alloc, "replay"))
}

/// The subcommand `recheck`.
fn recheck_command<'a>(alloc: Global) -> Result<Command<'a>, AllocError>
    ensures app { IfOk result (λ c. app_of c ≡ recheck) }
    ensures local { IfOk result (λ c. (out-Command c).has_globals ≡ false) }
{
    steps_command(alloc, "recheck")
}

/// The subcommand `session`.
fn session_command<'a>(alloc: Global) -> Result<Command<'a>, AllocError>
    ensures app { IfOk result (λ c. app_of c ≡ session) }
    ensures local { IfOk result (λ c. (out-Command c).has_globals ≡ false) }
{
    with_callers(alloc, Command::new(alloc, "session"))
}

/// The same with `trial`.
fn with_trial<'a>(alloc: Global) -> Result<Command<'a>, AllocError>
    ensures app { IfOk result (λ c. app_of c ≡ with_checks) }
{
    let trial = trial_command(alloc)?;
    with_make(alloc)?.subcommand(trial)
}

/// The same with `trim`.
fn with_trim<'a>(alloc: Global) -> Result<Command<'a>, AllocError>
    ensures app { IfOk result (λ c. app_of c ≡ with_subcommand with_checks trim.top) }
{
    let trim = trim_command(alloc)?;
    with_trial(alloc)?.subcommand(trim)
}

/// The same with `trace`.
fn with_trace<'a>(alloc: Global) -> Result<Command<'a>, AllocError>
    ensures app { IfOk result (λ c. app_of c ≡ with_writers) }
{
    let trace = trace_command(alloc)?;
    with_trim(alloc)?.subcommand(trace)
}

/// The same with `replay`.
fn with_replay<'a>(alloc: Global) -> Result<Command<'a>, AllocError>
    ensures app { IfOk result (λ c. app_of c ≡ with_subcommand with_writers replay.top) }
{
    let replay = replay_command(alloc)?;
    with_trace(alloc)?.subcommand(replay)
}

/// The same with `recheck`.
fn with_recheck<'a>(alloc: Global) -> Result<Command<'a>, AllocError>
    ensures app { IfOk result (λ c. app_of c
        ≡ with_subcommand (with_subcommand with_writers replay.top) recheck.top) }
{
    let recheck = recheck_command(alloc)?;
    with_replay(alloc)?.subcommand(recheck)
}

/// The whole command.
pub fn command<'a>(alloc: Global) -> Result<Command<'a>, AllocError>
    ensures app { IfOk result (λ c. app_of c ≡ leancheck) }
{
    let session = session_command(alloc)?;
    with_recheck(alloc)?.subcommand(session)
}
