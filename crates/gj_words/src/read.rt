//! Words to settings. The first word is the command; `clap` reads the others.

ghost use Rattle.std.specs.Prelude.{◌≡◌, ◌≤◌, Err, IfOk, false, map, string_bytes};
ghost use Rattle.gj_words.specs.Words.{IsWithinLimits, most_steps, names_command};
ghost use Rattle.gj_words.specs.declared.settings.NoSettings.TheVariants.{Usage};

use crate::settings::{Budget, NoSettings, Settings};
use clap::{Arg, ArgAction, ArgMatches, Command};
use std::alloc::{AllocError, Global};

const OUT_FILE: &str = "out.js";

const SOURCE_FOLDER: &str = "src";

const SEED: u64 = 1;

const STEPS: u64 = 1000000000;

const MOST_STEPS: u64 = 1000000000000;

const MOST_SIZE: u32 = 1000;

/// What the words after the program's name ask for.
pub fn read_words<'a>(alloc: Global, words: &'a [String]) -> Result<Settings<'a>, NoSettings>
    ensures limits { IfOk result IsWithinLimits }
    ensures usage { names_command (map (λ w. string_bytes w) words.now) ≡ false → result ≡ Err Usage }
{
    let Some(command) = words.first() else {
        return Err(NoSettings::Usage);
    };
    match command.as_str() {
        "build" => build(alloc, words),
        "run" => run(alloc, words),
        "exec" => exec(alloc, words),
        "blocking" => blocking(alloc, words),
        "gen" => generated(alloc, words),
        "version" => version(alloc, words),
        _ => Err(NoSettings::Usage),
    }
}

fn build<'a>(alloc: Global, words: &'a [String]) -> Result<Settings<'a>, NoSettings>
    ensures limits { IfOk result IsWithinLimits }
{
    let out = option(alloc, "output").short('o');
    let small = Arg::new(alloc, "minify")
        .short('m')
        .long("minify")
        .action(ArgAction::SetTrue);
    let command = command(alloc)
        .arg(out)?
        .arg(small)?
        .arg(option(alloc, "src"))?
        .arg(operand(alloc))?;
    let matches = command.try_get_matches_from(words)?;
    Ok(Settings::Build {
        folder: operand_of(&matches)?,
        out: text_or(&matches, "output", OUT_FILE),
        src: text_or(&matches, "src", SOURCE_FOLDER),
        is_small: matches.get_flag("minify"),
    })
}

fn run<'a>(alloc: Global, words: &'a [String]) -> Result<Settings<'a>, NoSettings>
    ensures limits { IfOk result IsWithinLimits }
{
    let command = with_budget(alloc, command(alloc))?
        .arg(option(alloc, "src"))?
        .arg(operand(alloc))?;
    let matches = command.try_get_matches_from(words)?;
    Ok(Settings::Run {
        folder: operand_of(&matches)?,
        src: text_or(&matches, "src", SOURCE_FOLDER),
        budget: budget_of(&matches)?,
    })
}

fn exec<'a>(alloc: Global, words: &'a [String]) -> Result<Settings<'a>, NoSettings>
    ensures limits { IfOk result IsWithinLimits }
{
    let command = with_budget(alloc, command(alloc))?.arg(operand(alloc))?;
    let matches = command.try_get_matches_from(words)?;
    Ok(Settings::Exec {
        file: operand_of(&matches)?,
        budget: budget_of(&matches)?,
    })
}

fn blocking<'a>(alloc: Global, words: &'a [String]) -> Result<Settings<'a>, NoSettings>
    ensures limits { IfOk result IsWithinLimits }
{
    let command = command(alloc)
        .arg(option(alloc, "src"))?
        .arg(operand(alloc))?;
    let matches = command.try_get_matches_from(words)?;
    Ok(Settings::Blocking {
        folder: operand_of(&matches)?,
        src: text_or(&matches, "src", SOURCE_FOLDER),
    })
}

fn generated<'a>(alloc: Global, words: &'a [String]) -> Result<Settings<'a>, NoSettings>
    ensures limits { IfOk result IsWithinLimits }
{
    let size = option(alloc, "size")
        .required(true)
        .value_parser(clap::value_parser!(u32));
    let matches = command(alloc).arg(size)?.try_get_matches_from(words)?;
    match matches.get_one::<u32>("size") {
        Some(size) if size > 0 && size <= MOST_SIZE => Ok(Settings::Gen { size }),
        _ => Err(NoSettings::Usage),
    }
}

fn version<'a>(alloc: Global, words: &'a [String]) -> Result<Settings<'a>, NoSettings>
    ensures limits { IfOk result IsWithinLimits }
{
    let _ = command(alloc).try_get_matches_from(words)?;
    Ok(Settings::Version)
}

// A command without arguments. Its first word is its own name.
fn command<'a>(alloc: Global) -> Command<'a> {
    Command::new(alloc, "gopherjs").disable_help_flag(true)
}

// `--NAME VALUE`
fn option<'a>(alloc: Global, name: &'a str) -> Arg<'a> {
    Arg::new(alloc, name).long(name).action(ArgAction::Set)
}

// The folder or the file.
fn operand<'a>(alloc: Global) -> Arg<'a> {
    Arg::new(alloc, "operand")
        .required(true)
        .action(ArgAction::Set)
}

// `[--seed N] [--steps N]`
fn with_budget<'a>(alloc: Global, command: Command<'a>) -> Result<Command<'a>, AllocError> {
    let seed = option(alloc, "seed").value_parser(clap::value_parser!(u64));
    let steps = option(alloc, "steps").value_parser(clap::value_parser!(u64));
    command.arg(seed)?.arg(steps)
}

fn operand_of<'a>(matches: &ArgMatches<'a>) -> Result<&'a str, NoSettings> {
    match matches.get_str("operand") {
        Some(text) => Ok(text),
        None => Err(NoSettings::Usage),
    }
}

fn text_or<'a>(matches: &ArgMatches<'a>, name: &str, default: &'a str) -> &'a str {
    match matches.get_str(name) {
        Some(text) => text,
        None => default,
    }
}

fn number_or(matches: &ArgMatches<'_>, name: &str, default: u64) -> u64 {
    match matches.get_one::<u64>(name) {
        Some(number) => number,
        None => default,
    }
}

fn budget_of(matches: &ArgMatches<'_>) -> Result<Budget, NoSettings>
    ensures { IfOk result (λ b. b.steps ≤ most_steps) }
{
    let steps = number_or(matches, "steps", STEPS);
    if steps == 0 || steps > MOST_STEPS {
        return Err(NoSettings::Usage);
    }
    Ok(Budget {
        seed: number_or(matches, "seed", SEED),
        steps,
    })
}
