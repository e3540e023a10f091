//! The command line.

ghost use Rattle.std.specs.Prelude.{◌≡◌, ◌≤◌, ◌⊎◌, [], IfOk, IfErr, codes};
ghost use Rattle.std.specs.Option.{option_map, unwrap_or};
ghost use Rattle.clap.specs.Words.{found_of, first_value, one_text};
ghost use Rattle.lgm_start.specs.Options.{AreChain, AreNoChain, AreKnown, AreNotKnown, AreWorkers};
ghost use Rattle.lgm_start.specs.declared.options.BadWords.TheVariants.{NoMemory};

use clap::builder::ValueParser;
use clap::{Arg, ArgAction, ArgMatches, Command, Error};
use lgm_gossip::ChainHash;
use lgm_graph::Known;
use lgm_par::MAX_WORKERS;
use std::alloc::{AllocError, Global};
use std::env;
use std::env::Env;
use std::io::ErrorKind;

/// The greatest number of bytes of the known feature bits.
const MAX_KNOWN: usize = 256;

/// The program's version.
const VERSION: &str = "1.1";

/// The end of the help of `lgm run`: for the chain of the examples, and for mainnet.
const RUN_EXAMPLES: &str = "\
Examples:
  lgm run --chain c1c1c1c1c1c1c1c1c1c1c1c1c1c1c1c1c1c1c1c1c1c1c1c1c1c1c1c1c1c1c1c1 \
< examples/payments.txt
  lgm run --chain 6fe28c0ab6f1b372c1a6a246ae63f74f931e8365e15a089c68d6190000000000 \
--workers 1 < network.txt

docs/script.md has the grammar, docs/questions.md the chains, `bad` and `no-route`.
";

/// The end of the help of `lgm live`.
const LIVE_EXAMPLES: &str = "\
Examples:
  lgm live --chain c1c1c1c1c1c1c1c1c1c1c1c1c1c1c1c1c1c1c1c1c1c1c1c1c1c1c1c1c1c1c1c1 \
< examples/live.txt
  lgm live --chain 6fe28c0ab6f1b372c1a6a246ae63f74f931e8365e15a089c68d6190000000000 \
--workers 8 < network.txt

docs/script.md says what is answered, under \"A map that grows\".
";

/// The command.
#[derive(Clone, Copy, Debug, PartialEq, Eq)]
pub enum Mode {
    /// `lgm run`: lines are answered one after the other.
    Run,
    /// `lgm live`: payments are answered while items are admitted.
    Live,
}

/// What the command line says.
#[derive(Drop)]
pub struct Options {
    /// The command.
    pub mode: Mode,
    /// The chain whose messages are accepted.
    pub chain: ChainHash,
    /// The node feature bits that are known.
    pub known: Known,
    /// The number of threads, 1 to [`MAX_WORKERS`].
    pub workers: usize,
}

/// Why the command line gives no options, in the order of the checks.
#[derive(Drop)]
pub enum BadWords {
    /// An argument isn't UTF-8.
    NotText,
    /// `clap` refused the arguments, or help or the version was requested.
    Words(Error),
    /// The chain isn't 64 hexadecimal digits.
    Chain,
    /// The known feature bits aren't 2 to 512 hexadecimal digits, an even number.
    Known,
    /// Out of memory.
    NoMemory,
}

impl From<AllocError> for BadWords {
    ghost from_gives = { λ _ e. e ≡ NoMemory };

    fn from(_e: AllocError) -> BadWords {
        BadWords::NoMemory
    }
}

/// A subcommand that reads a script.
fn script_command<'a>(
    alloc: Global,
    name: &'a str,
    about: &'a str,
    examples: &'a str,
) -> Result<Command<'a>, AllocError> {
    let chain = Arg::new(alloc, "chain")
        .long("chain")
        .value_name("HEX")
        .help("The chain hash, 64 hexadecimal digits in the byte order of BOLT 0")
        .required(true)
        .action(ArgAction::Set);
    let known = Arg::new(alloc, "known")
        .long("known")
        .value_name("HEX")
        .help("The node feature bits that are known, 2 to 512 hexadecimal digits; by default all")
        .action(ArgAction::Set);
    let workers = Arg::new(alloc, "workers")
        .long("workers")
        .value_name("N")
        .help("The number of threads, 1 to 64")
        .value_parser(ValueParser::unsigned(1, MAX_WORKERS as u64))
        .default_value("4")
        .action(ArgAction::Set);
    Command::new(alloc, name)
        .about(about)
        .after_help(examples)
        .arg(chain)?
        .arg(known)?
        .arg(workers)
}

fn program<'a>(alloc: Global) -> Result<Command<'a>, AllocError> {
    let run = script_command(
        alloc,
        "run",
        "Answers a script on standard input, line by line",
        RUN_EXAMPLES,
    )?;
    let live = script_command(
        alloc,
        "live",
        "Answers the payments of a script on standard input while its items are admitted",
        LIVE_EXAMPLES,
    )?;
    Command::new(alloc, "lgm")
        .about("A verified Lightning gossip map and route server")
        .version(VERSION)
        .subcommand_required(true)
        .subcommand(run)?
        .subcommand(live)
}

/// The chain that digits spell. The only error is `Chain`.
fn chain(digits: &str) -> Result<ChainHash, BadWords>
    ensures ok { IfOk result (AreChain digits.now) }
    ensures bad { IfErr result (λ bad. (bad ≡ BadWords.Chain) × AreNoChain digits.now) }
{
    match lgm_hex::decode_array::<32>(digits.as_bytes()) {
        Ok(bytes) => Ok(ChainHash(bytes)),
        Err(_) => Err(BadWords::Chain),
    }
}

/// The known feature bits. Without digits all are known. The errors are `Known`, and out of memory.
fn known(alloc: Global, digits: Option<&str>) -> Result<Known, BadWords>
    ensures ok { IfOk result (AreKnown (option_map (λ d. d.now) digits.entry)) }
    ensures bad { IfErr result (λ bad. (bad ≡ BadWords.NoMemory)
        ⊎ ((bad ≡ BadWords.Known) × AreNotKnown (option_map (λ d. d.now) digits.entry))) }
{
    let Some(digits) = digits else {
        return Ok(Known::all());
    };
    let mut room = [0; MAX_KNOWN];
    let count = digits.len() / 2;
    if count == 0 || count > MAX_KNOWN {
        return Err(BadWords::Known);
    }
    let bits = &mut room[..count];
    match lgm_hex::decode_to_slice(digits.as_bytes(), bits) {
        Ok(()) => Ok(Known::bits(alloc, bits)?),
        Err(_) => Err(BadWords::Known),
    }
}

/// The options that the arguments of a subcommand give.
fn options_of(alloc: Global, mode: Mode, words: &ArgMatches) -> Result<Options, BadWords>
    ensures mode { IfOk result (λ options. options.mode ≡ mode) }
    ensures chain { IfOk result (λ options.
        AreChain (unwrap_or (first_value (found_of words.now) (codes "chain")) []) options.chain) }
    ensures known { IfOk result
        (λ options. AreKnown (first_value (found_of words.now) (codes "known")) options.known) }
    ensures workers { IfOk result
        (λ options. AreWorkers (one_text (found_of words.now) (codes "workers")) options.workers) }
    ensures few { IfOk result (λ options. (1 ≤ options.workers) × (options.workers ≤ 64)) }
{
    // `clap` has checked that they are 1 to `MAX_WORKERS`.
    let workers = words
        .get_one::<u64>("workers")
        .unwrap_or(4)
        .clamp(1, MAX_WORKERS as u64);
    Ok(Options {
        mode,
        chain: chain(words.get_str("chain").unwrap_or(""))?,
        known: known(alloc, words.get_str("known"))?,
        workers: workers as usize,
    })
}

/// The arguments of an environment, the program's name first.
pub fn read_words<E: Env + AllocGlobal>(env: &E) -> Result<Vec<String>, BadWords> {
    match env::args(env) {
        Ok(words) => Ok(words.collect(env.alloc())?),
        Err(error) => match error.kind() {
            ErrorKind::OutOfMemory => Err(BadWords::NoMemory),
            _ => Err(BadWords::NotText),
        },
    }
}

/// The options that arguments give, the program's name first.
pub fn parse(alloc: Global, words: &[String]) -> Result<Options, BadWords>
    ensures { IfOk result (λ options. (1 ≤ options.workers) × (options.workers ≤ 64)) }
{
    let command = program(alloc)?;
    let matches = match command.try_get_matches_from(words) {
        Ok(matches) => matches,
        Err(error) => return Err(BadWords::Words(error)),
    };
    if let Some(words) = matches.subcommand_matches("live") {
        return options_of(alloc, Mode::Live, words);
    }
    match matches.subcommand_matches("run") {
        Some(words) => options_of(alloc, Mode::Run, words),
        None => Err(BadWords::Chain),
    }
}
