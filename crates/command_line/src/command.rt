//! The subcommands and their arguments, as `clap` reads them.
ghost use Rattle.std.specs.Prelude.{◌≡◌, IfOk, codes, false, map};
ghost use Rattle.clap.specs.Words.{App, Rule, FailsBy, fault_of, subcommand_of, subcommand_rows_of, app_of, rule_of, new_app, with_rule, with_subcommand};
ghost use Rattle.clap.specs.declared.builder.command.Command.TheViews.{out-Command as fields_of};
ghost use Rattle.command_line.specs.Commands as told;

use crate::help;
use clap::builder::ValueParser;
use clap::{Arg, ArgAction, ArgMatches, Command, Error, value_parser};
use std::alloc::{AllocError, Global};

/// The profile of the files that `format` makes unless another is asked for, by which a version is named.
const VERSION: &str = "3";

/// The folder of a store.
fn dir<'a>(alloc: Global) -> Arg<'a>
    ensures { told.IsArg result told.dir }
{
    Arg::new(alloc, "DIR")
        .required(true)
        .help("The folder of the store's three files")
}

/// A time, which `clap` takes as any text.
fn time<'a>(alloc: Global) -> Arg<'a>
    ensures { told.IsArg result told.time }
{
    Arg::new(alloc, "TIME").required(true).help(
        "The time, in microseconds since 1970 or as YYYY-MM-DDTHH:MM:SSZ",
    )
}

/// Where an interval begins.
fn from<'a>(alloc: Global) -> Arg<'a>
    ensures { told.IsArg result told.from }
{
    Arg::new(alloc, "FROM")
        .required(true)
        .help("Where the interval begins, a time as of `at`")
}

/// Where an interval ends.
fn to<'a>(alloc: Global) -> Arg<'a>
    ensures { told.IsArg result told.to }
{
    Arg::new(alloc, "TO")
        .required(true)
        .help("Where it ends: this time is no longer in it")
}

/// A time, in more forms than that of scripts.
fn moment<'a>(alloc: Global) -> Arg<'a>
    ensures { told.IsArg result told.time }
{
    Arg::new(alloc, "TIME")
        .required(true)
        .help("A time, as in `get --help`")
}

/// A time that may be left out.
fn time_or_now<'a>(alloc: Global) -> Arg<'a>
    ensures { told.IsArg result told.time_or_now }
{
    Arg::new(alloc, "TIME").help("A time, or `now`, which it is unless it is said")
}

/// Where an interval begins, if not at the first time that is kept.
fn from_or_first<'a>(alloc: Global) -> Arg<'a>
    ensures { told.IsArg result told.from_or_first }
{
    Arg::new(alloc, "FROM").help("Where the interval begins, unless at the first time that is kept")
}

/// Where an interval ends, if not just after the last commit.
fn to_or_now<'a>(alloc: Global) -> Arg<'a>
    ensures { told.IsArg result told.to_or_now }
{
    Arg::new(alloc, "TO").help("Where it ends, unless just after the last commit")
}

/// A relation's number.
fn relation<'a>(alloc: Global) -> Arg<'a>
    ensures { told.IsArg result told.relation }
{
    Arg::new(alloc, "REL")
        .required(true)
        .value_parser(value_parser!(u16))
        .help("The relation's number, 0 to 65535")
}

/// A record's number.
fn record_number<'a>(alloc: Global) -> Arg<'a>
    ensures { told.IsArg result told.record_number }
{
    Arg::new(alloc, "REC")
        .required(true)
        .value_parser(value_parser!(u64))
        .help("The record's number in its relation")
}

/// The label of the commits that are looked for.
fn label_number<'a>(alloc: Global) -> Arg<'a>
    ensures { told.IsArg result told.label_number }
{
    Arg::new(alloc, "LABEL")
        .required(true)
        .value_parser(value_parser!(u64))
        .help("The label of the commits")
}

/// The label of a commit.
fn label<'a>(alloc: Global) -> Arg<'a>
    ensures { told.IsArg result told.label }
{
    Arg::new(alloc, "label")
        .long("label")
        .value_name("N")
        .value_parser(value_parser!(u64))
        .default_value("0")
        .help("The label of the commit, by which `times` finds it")
}

/// The fields of a value.
fn fields<'a>(alloc: Global) -> Arg<'a>
    ensures { told.IsArg result told.fields }
{
    Arg::new(alloc, "FIELD")
        .required(true)
        .num_args(1..=16)
        .help("A field in lower-case hexadecimal, `-` if empty")
}

/// A flag, which is set where the words have it.
fn flag<'a>(alloc: Global, name: &'a str, help: &'a str) -> Arg<'a>
    ensures { told.IsArg result (told.flag name.entry.now) }
{
    Arg::new(alloc, name)
        .long(name)
        .action(ArgAction::SetTrue)
        .help(help)
}

/// Whether fields are text.
fn text_flag<'a>(alloc: Global) -> Arg<'a>
    ensures { told.IsArg result told.text_flag }
{
    flag(alloc, "text", "Fields as text, not in hexadecimal")
}

/// Whether the answer is in JSON.
fn json_flag<'a>(alloc: Global) -> Arg<'a>
    ensures { told.IsArg result told.json_flag }
{
    flag(alloc, "json", "The answer in JSON, an object a line")
}

/// Whether the answer is in CSV.
fn csv_flag<'a>(alloc: Global) -> Arg<'a>
    ensures { told.IsArg result told.csv_flag }
{
    flag(
        alloc,
        "csv",
        "The answer in CSV, below the names of its columns",
    )
}

/// Whether times are instants.
fn instants_flag<'a>(alloc: Global) -> Arg<'a>
    ensures { told.IsArg result told.instants_flag }
{
    flag(
        alloc,
        "instants",
        "Times as YYYY-MM-DDTHH:MM:SSZ, with microseconds after SS if there are some",
    )
}

/// The profile of the store that is made.
fn profile<'a>(alloc: Global) -> Arg<'a>
    ensures { told.IsArg result told.profile }
{
    Arg::new(alloc, "profile")
        .long("profile")
        .value_name("P")
        .value_parser(ValueParser::Signed(3, 4))
        .default_value("3")
        .help("The layout of its files: 3, or 4, which is still being built")
}

/// How many slots a store is made with.
fn slots<'a>(alloc: Global) -> Arg<'a>
    ensures { told.IsArg result told.slots }
{
    Arg::new(alloc, "slots")
        .long("slots")
        .value_name("N")
        .value_parser(value_parser!(u32))
        .help("Profile 3: the slots of its log, 16 to 65536, or else 1024")
}

/// How many extents a store is made with.
fn extents<'a>(alloc: Global) -> Arg<'a>
    ensures { told.IsArg result told.extents }
{
    Arg::new(alloc, "extents")
        .long("extents")
        .value_name("E")
        .value_parser(value_parser!(u32))
        .help("Profile 4: the extents of its heap, 64 to 1048576 by 16, or else 262144")
}

/// How many threads write.
fn writers<'a>(alloc: Global) -> Arg<'a>
    ensures { told.IsArg result told.writers }
{
    Arg::new(alloc, "WRITERS")
        .required(true)
        .value_parser(ValueParser::Signed(1, 8))
        .help("The threads that write, 1 to 8")
}

/// How many threads read.
fn readers<'a>(alloc: Global) -> Arg<'a>
    ensures { told.IsArg result told.readers }
{
    Arg::new(alloc, "READERS")
        .required(true)
        .value_parser(ValueParser::Signed(0, 8))
        .help("The threads that read, 0 to 8")
}

/// How often each thread writes or reads.
fn rounds<'a>(alloc: Global) -> Arg<'a>
    ensures { told.IsArg result told.rounds }
{
    Arg::new(alloc, "ROUNDS")
        .required(true)
        .value_parser(ValueParser::Signed(1, 1000))
        .help("How often each of them does, 1 to 1000")
}

/// A command with no argument yet. Its help begins with the first text, and ends with the other.
fn command<'a>(alloc: Global, name: &'a str, about: &'a str, more: &'a str) -> Command<'a>
    ensures { told.IsCommand result (new_app name.entry.now) }
{
    Command::new(alloc, name).about(about).after_help(more)
}

/// The command with one more argument. Where there is no command, none is made.
fn with_arg<'a>(
    command: Result<Command<'a>, AllocError>,
    arg: Arg<'a>,
) -> Result<Command<'a>, AllocError>
    requires { arg.global ≡ false }
    ensures { (app : App) (rule : Rule) → IfOk command.entry (λ c. told.IsCommand c app) → told.IsArg arg.entry rule
        → IfOk result (λ c. told.IsCommand c (with_rule app rule)) }
{
    command?.arg(arg)
}

/// The command, whose answer may be text, JSON or CSV.
fn with_forms<'a>(
    alloc: Global,
    command: Result<Command<'a>, AllocError>,
) -> Result<Command<'a>, AllocError>
    ensures { (app : App) → IfOk command.entry (λ c. told.IsCommand c app) → IfOk result (λ c. told.IsCommand c (told.with_forms app)) }
{
    let command = with_arg(command, text_flag(alloc));
    let command = with_arg(command, json_flag(alloc));
    with_arg(command, csv_flag(alloc))
}

/// The command, whose times may be instants too.
fn with_styles<'a>(
    alloc: Global,
    command: Result<Command<'a>, AllocError>,
) -> Result<Command<'a>, AllocError>
    ensures { (app : App) → IfOk command.entry (λ c. told.IsCommand c app) → IfOk result (λ c. told.IsCommand c (told.with_styles app)) }
{
    let command = with_forms(alloc, command);
    with_arg(command, instants_flag(alloc))
}

fn format<'a>(alloc: Global) -> Result<Command<'a>, AllocError>
    ensures { IfOk result (λ c. told.IsCommand c told.format) }
{
    let command = command(alloc, "format", "Make an empty store", help::FORMAT);
    let command = with_arg(Ok(command), dir(alloc));
    let command = with_arg(command, profile(alloc));
    let command = with_arg(command, slots(alloc));
    with_arg(command, extents(alloc))
}

fn run<'a>(alloc: Global) -> Result<Command<'a>, AllocError>
    ensures { IfOk result (λ c. told.IsCommand c told.run) }
{
    let about = "Run the script of standard input on a store";
    let command = command(alloc, "run", about, help::RUN);
    with_arg(Ok(command), dir(alloc))
}

/// A command about one record of a store.
fn of_record<'a>(
    alloc: Global,
    name: &'a str,
    about: &'a str,
    more: &'a str,
) -> Result<Command<'a>, AllocError>
    ensures { IfOk result (λ c. told.IsCommand c (told.of_record name.entry.now)) }
{
    let command = command(alloc, name, about, more);
    let command = with_arg(Ok(command), dir(alloc));
    let command = with_arg(command, relation(alloc));
    with_arg(command, record_number(alloc))
}

fn at<'a>(alloc: Global) -> Result<Command<'a>, AllocError>
    ensures { IfOk result (λ c. told.IsCommand c told.at) }
{
    let command = of_record(
        alloc,
        "at",
        "Show the value of a record at a time",
        help::TIMES,
    );
    with_arg(command, time(alloc))
}

fn between<'a>(alloc: Global) -> Result<Command<'a>, AllocError>
    ensures { IfOk result (λ c. told.IsCommand c told.between) }
{
    let about = "Show what stood in a record from one time up to another";
    let command = of_record(alloc, "between", about, help::TIMES);
    let command = with_arg(command, from(alloc));
    with_arg(command, to(alloc))
}

fn get<'a>(alloc: Global) -> Result<Command<'a>, AllocError>
    ensures { IfOk result (λ c. told.IsCommand c told.get) }
{
    let command = of_record(alloc, "get", "Show the value of a record", help::ANSWERS);
    with_forms(alloc, with_arg(command, time_or_now(alloc)))
}

fn scan<'a>(alloc: Global) -> Result<Command<'a>, AllocError>
    ensures { IfOk result (λ c. told.IsCommand c told.scan) }
{
    let about = "Show the records of a relation";
    let command = command(alloc, "scan", about, help::ANSWERS);
    let command = with_arg(Ok(command), dir(alloc));
    let command = with_arg(command, relation(alloc));
    with_forms(alloc, with_arg(command, time_or_now(alloc)))
}

fn history<'a>(alloc: Global) -> Result<Command<'a>, AllocError>
    ensures { IfOk result (λ c. told.IsCommand c told.history) }
{
    let about = "Show what stood in a record, all that is kept of it or an interval";
    let command = of_record(alloc, "history", about, help::ANSWERS);
    let command = with_arg(command, from_or_first(alloc));
    with_styles(alloc, with_arg(command, to_or_now(alloc)))
}

fn times<'a>(alloc: Global) -> Result<Command<'a>, AllocError>
    ensures { IfOk result (λ c. told.IsCommand c told.times) }
{
    let about = "Show the times of the commits with a label";
    let command = command(alloc, "times", about, help::LABELS);
    let command = with_arg(Ok(command), dir(alloc));
    with_styles(alloc, with_arg(command, label_number(alloc)))
}

fn put<'a>(alloc: Global) -> Result<Command<'a>, AllocError>
    ensures { IfOk result (λ c. told.IsCommand c told.put) }
{
    let about = "Write the value of a record in a commit of its own";
    let command = of_record(alloc, "put", about, help::WRITES);
    let command = with_arg(command, fields(alloc));
    let command = with_arg(command, label(alloc));
    with_arg(command, text_flag(alloc))
}

fn del<'a>(alloc: Global) -> Result<Command<'a>, AllocError>
    ensures { IfOk result (λ c. told.IsCommand c told.del) }
{
    let about = "Delete the value of a record in a commit of its own";
    let command = of_record(alloc, "del", about, help::WRITES);
    with_arg(command, label(alloc))
}

fn vacuum<'a>(alloc: Global) -> Result<Command<'a>, AllocError>
    ensures { IfOk result (λ c. told.IsCommand c told.vacuum) }
{
    let about = "Archive what ended by a time, and reclaim its space";
    let command = command(alloc, "vacuum", about, help::VACUUM);
    let command = with_arg(Ok(command), dir(alloc));
    with_arg(command, time(alloc))
}

fn grow<'a>(alloc: Global) -> Result<Command<'a>, AllocError>
    ensures { IfOk result (λ c. told.IsCommand c told.grow) }
{
    let about = "Make 256 slots more in a store";
    let command = command(alloc, "grow", about, help::GROW);
    with_arg(Ok(command), dir(alloc))
}

fn floor<'a>(alloc: Global) -> Result<Command<'a>, AllocError>
    ensures { IfOk result (λ c. told.IsCommand c told.floor) }
{
    let about = "Let the history of a relation before a time go";
    let command = command(alloc, "floor", about, help::FLOOR);
    let command = with_arg(Ok(command), dir(alloc));
    let command = with_arg(command, relation(alloc));
    with_arg(command, moment(alloc))
}

fn info<'a>(alloc: Global) -> Result<Command<'a>, AllocError>
    ensures { IfOk result (λ c. told.IsCommand c told.info) }
{
    let about = "Show what a store has and what it has room for";
    let command = command(alloc, "info", about, help::INFO);
    let command = with_arg(Ok(command), dir(alloc));
    with_arg(command, json_flag(alloc))
}

fn dump<'a>(alloc: Global) -> Result<Command<'a>, AllocError>
    ensures { IfOk result (λ c. told.IsCommand c told.dump) }
{
    let about = "Show what the log of a store says";
    let command = command(alloc, "dump", about, help::DUMP);
    with_arg(Ok(command), dir(alloc))
}

fn stress<'a>(alloc: Global) -> Result<Command<'a>, AllocError>
    ensures { IfOk result (λ c. told.IsCommand c told.stress) }
{
    let about = "Let threads write and read a new store in memory";
    let command = command(alloc, "stress", about, help::STRESS);
    let command = with_arg(Ok(command), writers(alloc));
    let command = with_arg(command, readers(alloc));
    with_arg(command, rounds(alloc))
}

/// The command with one more subcommand. Where either is lacking, none is made.
fn with_command<'a>(
    command: Result<Command<'a>, AllocError>,
    sub: Result<Command<'a>, AllocError>,
) -> Result<Command<'a>, AllocError>
    requires { IfOk sub (λ c. (fields_of c).has_globals ≡ false) }
    ensures { (app below : App) → IfOk command.entry (λ c. told.IsCommand c app) → IfOk sub.entry (λ c. told.IsCommand c below)
        → IfOk result (λ c. told.IsCommand c (with_subcommand app below.top)) }
{
    command?.subcommand(sub?)
}

/// The command with no subcommand yet, which help calls `timestore` whatever its file is called.
fn top<'a>(alloc: Global) -> Result<Command<'a>, AllocError>
    ensures { IfOk result (λ c. told.IsCommand c told.top) }
{
    command(
        alloc,
        "timestore",
        "A store of records that keeps every version. Without a command it runs the script of \
         standard input on a new store of 16 slots in memory",
        help::LIMITS,
    )
    .version(VERSION)
    .bin_name("timestore")
}

/// The commands that make a store and run scripts.
fn making<'a>(alloc: Global) -> Result<Command<'a>, AllocError>
    ensures { IfOk result (λ c. told.IsCommand c told.making) }
{
    let command = with_command(top(alloc), format(alloc));
    with_command(command, run(alloc))
}

/// These, and the commands that ask about a record.
fn asking<'a>(alloc: Global) -> Result<Command<'a>, AllocError>
    ensures { IfOk result (λ c. told.IsCommand c told.asking) }
{
    let command = with_command(making(alloc), at(alloc));
    with_command(command, between(alloc))
}

/// These, and the commands that do a job.
fn working<'a>(alloc: Global) -> Result<Command<'a>, AllocError>
    ensures { IfOk result (λ c. told.IsCommand c told.working) }
{
    let command = with_command(asking(alloc), vacuum(alloc));
    with_command(command, grow(alloc))
}

/// These, and the command that shows the log.
fn keeping<'a>(alloc: Global) -> Result<Command<'a>, AllocError>
    ensures { IfOk result (λ c. told.IsCommand c told.keeping) }
{
    with_command(working(alloc), dump(alloc))
}

/// These, and the commands that ask about what is valid now.
fn reading<'a>(alloc: Global) -> Result<Command<'a>, AllocError>
    ensures { IfOk result (λ c. told.IsCommand c told.reading) }
{
    let command = with_command(keeping(alloc), get(alloc));
    let command = with_command(command, scan(alloc));
    let command = with_command(command, history(alloc));
    with_command(command, times(alloc))
}

/// These, and the commands that write one record.
fn writing<'a>(alloc: Global) -> Result<Command<'a>, AllocError>
    ensures { IfOk result (λ c. told.IsCommand c told.writing) }
{
    let command = with_command(reading(alloc), put(alloc));
    with_command(command, del(alloc))
}

/// These, and the commands that raise a floor and show what a store has.
fn telling<'a>(alloc: Global) -> Result<Command<'a>, AllocError>
    ensures { IfOk result (λ c. told.IsCommand c told.telling) }
{
    let command = with_command(writing(alloc), floor(alloc));
    with_command(command, info(alloc))
}

/// The whole command line.
fn timestore<'a>(alloc: Global) -> Result<Command<'a>, AllocError>
    ensures { IfOk result (λ c. told.IsCommand c told.timestore) }
{
    with_command(telling(alloc), stress(alloc))
}

/// What the words say, as `clap` reads them; the first word is the program's.
///
/// # Errors
///
/// Where `clap` refuses the words or they ask for help or the version, with a text to print.
pub fn read_words<'a>(alloc: Global, words: &'a [&'a str]) -> Result<ArgMatches<'a>, Error>
    ensures met { IfOk result (λ m. subcommand_rows_of m ≡ subcommand_of told.timestore (map (λ w. w.now) words.entry.now)) }
    ensures faults { FailsBy (fault_of told.timestore (map (λ w. w.now) words.entry.now)) result }
{
    timestore(alloc)?.try_get_matches_from(words)
}
