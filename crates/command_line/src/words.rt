//! A job of the program, as its words ask for it.
ghost use Rattle.std.specs.Prelude.{◌≡◌, ℕ, [], codes, IfOk, OnOk, IfErr, IfSome, IfNone, Option, List, ◌⊎◌, map, option_map, is_some, string_bytes};
ghost use Rattle.clap.specs.Words.{HasKind, app_of, fault_of, found_of, rows_of, subcommand_rows_of};
ghost use Rattle.clap.specs.Walk.{one_of, first_of};
ghost use Rattle.command_words.specs.Grammar.{uffs};
ghost use Rattle.command_line.specs.Jobs.{AreNumbersOf, AsksFor, IsImageOf, IsNumberOf, SaysJob, count_word, difference_task, flag_of, forget_task, format_task, has_no_image, has_word, help_task, map_task, serve_task, task_asked, task_named, history_task_named, reading_task_named, other_form_task_named, task_named_without_files, task_with, word_text};
ghost use Rattle.command_line.specs.declared.tasks.Job.{Job};
ghost use Rattle.command_line.specs.declared.words.Numbers.{Numbers};

use crate::tasks::{HistoryCall, Job, Task};
use clap::error::ErrorKind;
use clap::{ArgMatches, Command, Error};
use command_words::names::{
    ANSWERS, COUNT, FILE, FREE, IMAGE, NAME, ORDERS, OTHER, PART, PATH, REFUSAL, SERIAL, VIEW, WORD,
};
use command_words::program;
use std::alloc::Global;

/// The numbers of a job.
#[derive(Clone, Copy)]
struct Numbers {
    page: u32,
    pages: u32,
    blocks: u32,
    history: u32,
    count: u32,
}

/// What the words that follow the program's name ask for.
///
/// A number is the one that its word spells, else its default: 256, 16, 32 and 8 for the sizes and the
/// history, and 1 for a count. It is any `u32`: whether it is lawful is the format's to say, or the
/// call's. Where the words are no job the error has the text for the user and says why; want of
/// memory is `OutOfMemory`.
pub fn job<'a>(alloc: Global, words: &'a [String]) -> Result<Job<'a>, Error>
    ensures given { IfOk result (AsksFor (map string_bytes words.now)) }
    // Words that are refused ask for no job.
    ensures lawful { OnOk result (fault_of uffs (map string_bytes words.now) ≡ []) }
    // Why words are refused, unless they ask for nothing.
    ensures refused { IfErr result (λ error. HasKind (fault_of uffs (map string_bytes words.now)) error
        ⊎ ((job : Job) → AsksFor (map string_bytes words.now) job → ⊥)) }
{
    let mut program = program(alloc)?;
    asked_of(&mut program, words)
}

/// What the words ask of the program.
fn asked_of<'a>(program: &mut Command<'a>, words: &'a [String]) -> Result<Job<'a>, Error>
    requires form { app_of program.old ≡ uffs }
    ensures given { IfOk result (AsksFor (map string_bytes words.now)) }
    ensures lawful { OnOk result (fault_of uffs (map string_bytes words.now) ≡ []) }
    ensures refused { IfErr result (λ error. HasKind (fault_of uffs (map string_bytes words.now)) error
        ⊎ ((job : Job) → AsksFor (map string_bytes words.now) job → ⊥)) }
{
    let matches = program.try_get_matches_from_mut(words)?;
    match said(&matches) {
        Some(job) => Ok(job),
        None => Err(nothing_asked(program, misuse_of(&matches))),
    }
}

/// The error for words that ask for nothing, with why.
fn nothing_asked(program: &mut Command<'_>, why: &str) -> Error {
    match program.error(ErrorKind::InvalidValue, why) {
        Ok(error) => error,
        Err(error) => Error::from(error),
    }
}

/// Why words ask for nothing of which each is understood.
fn misuse_of(matches: &ArgMatches<'_>) -> &'static str {
    let Some((name, given)) = matches.subcommand() else {
        return "the words ask for nothing";
    };
    match (name, is_given(given, PART)) {
        ("format", true) => "'--part <FILE>' cannot be used with IMAGE",
        ("format", false) => "IMAGE or '--part <FILE>' is wanted",
        ("serve", true) => "'--part <FILE>' cannot be used with ANSWERS",
        ("serve", false) => "ANSWERS and ORDERS, or '--part <FILE>', are wanted",
        ("forget", _) => "either N or '--free <BLOCKS>' is wanted",
        ("help", _) => "there is no such WORD; 'uffs help' tells which there are",
        _ => "the words ask for nothing",
    }
}

/// The job that the words say, of which the program's own form is known.
fn said<'a>(matches: &ArgMatches<'a>) -> Option<Job<'a>>
    ensures some { IfSome result (SaysJob (subcommand_rows_of matches.now)) }
    ensures none { IfNone result ((job : Job) → SaysJob (subcommand_rows_of matches.now) job → ⊥) }
{
    let (name, given) = matches.subcommand()?;
    let command = task_asked(name, given)?;
    let image = image(given, command)?;
    let numbers = numbers_of(given, command)?;
    Some(Job {
        command,
        image,
        page: numbers.page,
        pages: numbers.pages,
        blocks: numbers.blocks,
        history: numbers.history,
        count: numbers.count,
        refusal: word(given, REFUSAL),
        checkpoint: word(given, NAME),
        is_page_given: is_given(given, "page"),
        is_pages_given: is_given(given, "pages"),
        is_blocks_given: is_given(given, "blocks"),
        is_history_given: is_given(given, "history"),
        answers: word(given, ANSWERS),
        orders: word(given, ORDERS),
        part: word(given, PART),
        exit_code: has_flag(given, "exit-code"),
        stop: has_flag(given, "stop"),
        path: word(given, PATH),
        file: word(given, FILE),
        view: word(given, VIEW),
        other: word(given, OTHER),
        serial: word(given, SERIAL),
        word: word(given, WORD),
        progress: has_flag(given, "progress"),
        mirror: has_flag(given, "mirror"),
        skip_links: has_flag(given, "skip-links"),
        salvage: has_flag(given, "salvage"),
        changes: has_flag(given, "changes"),
    })
}

/// The numbers that the options of a task give, else their defaults; none where a word spells no number.
fn numbers_of(given: &ArgMatches<'_>, command: Task) -> Option<Numbers>
    ensures some { IfSome result (AreNumbersOf command (rows_of (found_of given.now))) }
    ensures none { IfNone result ((numbers : Numbers) → AreNumbersOf command (rows_of (found_of given.now)) numbers → ⊥) }
{
    Some(Numbers {
        page: number(given, "page", 256)?,
        pages: number(given, "pages", 16)?,
        blocks: number(given, "blocks", 32)?,
        history: number(given, "history", 8)?,
        count: number(given, count_word(command), 1)?,
    })
}

/// The word of a task that says how many.
fn count_word(command: Task) -> &'static str
    ensures { result.now ≡ count_word command }
{
    match command {
        Task::History(HistoryCall::ForgetFree) => FREE,
        _ => COUNT,
    }
}

/// The task of a subcommand with its words; none where these do not go together.
fn task_asked(name: &str, given: &ArgMatches<'_>) -> Option<Task>
    ensures { result ≡ task_asked name.now (rows_of (found_of given.now)) }
{
    task_with(task_named(name)?, given)
}

/// The task of a subcommand of this name with these words.
fn task_with(task: Task, given: &ArgMatches<'_>) -> Option<Task>
    ensures { result ≡ task_with (rows_of (found_of given.now)) task }
{
    match task {
        Task::History(HistoryCall::Forget) => {
            forget_task(is_given(given, COUNT), is_given(given, FREE))
        }
        Task::Format => format_task(is_given(given, PART), is_given(given, IMAGE)),
        Task::Serve => serve_task(
            is_given(given, PART),
            is_given(given, ANSWERS),
            is_given(given, ORDERS),
        ),
        Task::Map => Some(map_task(is_given(given, FILE))),
        Task::Diff => Some(difference_task(is_given(given, VIEW))),
        Task::Help => help_task(word(given, WORD)),
        _ => Some(task),
    }
}

/// Versions are forgotten by how many they are, or by how many blocks are to be free: one is given.
fn forget_task(is_count_given: bool, is_free_given: bool) -> Option<Task>
    ensures { result ≡ forget_task is_count_given is_free_given }
{
    match (is_count_given, is_free_given) {
        (true, false) => Some(Task::History(HistoryCall::Forget)),
        (false, true) => Some(Task::History(HistoryCall::ForgetFree)),
        _ => None,
    }
}

/// A map is printed, or it is put into a file as a page.
fn map_task(is_file_given: bool) -> Task
    ensures { result ≡ map_task is_file_given }
{
    if is_file_given {
        Task::MapPage
    } else {
        Task::Map
    }
}

/// What differs is told of a view, or without one of the last change.
fn difference_task(is_view_given: bool) -> Task
    ensures { result ≡ difference_task is_view_given }
{
    if is_view_given {
        Task::Diff
    } else {
        Task::LastChange
    }
}

/// Help tells of all words, or of one that there is.
fn help_task(word: Option<&str>) -> Option<Task>
    ensures { result ≡ help_task (word_text word.entry) }
{
    match word {
        Some(word) => match task_named(word) {
            Some(_) => Some(Task::Help),
            None => None,
        },
        None => Some(Task::Help),
    }
}

/// The task of a subcommand of this name.
fn task_named(name: &str) -> Option<Task>
    ensures { result ≡ task_named name.now }
{
    match name {
        "format" => Some(Task::Format),
        "run" => Some(Task::Run),
        "put" => Some(Task::Put),
        "trim" => Some(Task::Trim),
        "get" => Some(Task::Get),
        "update" => Some(Task::Update),
        "create" => Some(Task::Create),
        "copy" => Some(Task::Copy),
        _ => history_task_named(name),
    }
}

/// One that moves in the history or keeps it short, else one of those below.
fn history_task_named(name: &str) -> Option<Task>
    ensures { result ≡ history_task_named name.now }
{
    match name {
        "undo" => Some(Task::History(HistoryCall::Undo)),
        "redo" => Some(Task::History(HistoryCall::Redo)),
        "goto" => Some(Task::History(HistoryCall::Goto)),
        "rollback" => Some(Task::History(HistoryCall::Rollback)),
        "checkpoint" => Some(Task::History(HistoryCall::Checkpoint)),
        "rmcheckpoint" => Some(Task::History(HistoryCall::RemoveCheckpoint)),
        "forget" => Some(Task::History(HistoryCall::Forget)),
        _ => reading_task_named(name),
    }
}

/// One that only reads an image, else one of those below.
fn reading_task_named(name: &str) -> Option<Task>
    ensures { result ≡ reading_task_named name.now }
{
    match name {
        "cat" => Some(Task::Cat),
        "tree" => Some(Task::Tree),
        "ls" => Some(Task::List),
        "du" => Some(Task::Usage),
        "history" => Some(Task::PathHistory),
        "diff" => Some(Task::Diff),
        "versions" => Some(Task::Versions),
        "check" => Some(Task::Check),
        "log" => Some(Task::Log),
        "df" => Some(Task::Df),
        "map" => Some(Task::Map),
        _ => other_form_task_named(name),
    }
}

/// One on another form of a flash or on an archive, else one of those below.
fn other_form_task_named(name: &str) -> Option<Task>
    ensures { result ≡ other_form_task_named name.now }
{
    match name {
        "serve" => Some(Task::Serve),
        "to-part" => Some(Task::ToPart),
        "from-part" => Some(Task::FromPart),
        "raw" => Some(Task::ToRaw),
        "from-raw" => Some(Task::FromRaw),
        "tar" => Some(Task::Tar),
        "untar" => Some(Task::Untar),
        _ => task_named_without_files(name),
    }
}

/// One that asks for no file.
fn task_named_without_files(name: &str) -> Option<Task>
    ensures { result ≡ task_named_without_files name.now }
{
    match name {
        "memory" => Some(Task::Memory),
        "explain" => Some(Task::Explain),
        "help" => Some(Task::Help),
        "version" => Some(Task::Version),
        _ => None,
    }
}

/// The task of a format, by what is named.
fn format_task(part: bool, image: bool) -> Option<Task>
    ensures { result ≡ format_task part image }
{
    match (part, image) {
        (true, false) => Some(Task::FormatPart),
        (false, true) => Some(Task::Format),
        _ => None,
    }
}

/// The task of a session, by what is named.
fn serve_task(part: bool, answers: bool, orders: bool) -> Option<Task>
    ensures { result ≡ serve_task part answers orders }
{
    match (part, answers, orders) {
        (true, false, false) => Some(Task::ServePart),
        (false, true, true) => Some(Task::Serve),
        _ => None,
    }
}

/// Whether a task has no image.
fn has_no_image(command: Task) -> bool
    ensures { result ≡ has_no_image command }
{
    match command {
        Task::Memory | Task::Serve | Task::ServePart | Task::FormatPart => true,
        Task::Explain | Task::Help | Task::Version => true,
        _ => false,
    }
}

/// The image that a task is done on, and that there is none for one that has none.
fn image<'a>(given: &ArgMatches<'a>, command: Task) -> Option<Option<&'a str>>
    ensures some { IfSome result (λ image. IsImageOf command (first_of (codes "IMAGE") (rows_of (found_of given.now))) (option_map (λ s. s.now) image)) }
    ensures none { IfNone result ((image : Option (List ℕ)) → IsImageOf command (first_of (codes "IMAGE") (rows_of (found_of given.now))) image → ⊥) }
{
    if has_no_image(command) {
        return Some(None);
    }
    match given.get_str(IMAGE) {
        Some(path) => Some(Some(path)),
        None => None,
    }
}

/// The word of an argument; none where there is none.
fn word<'a>(given: &ArgMatches<'a>, name: &str) -> Option<&'a str>
    ensures { option_map (λ s. s.now) result ≡ first_of name.now (rows_of (found_of given.now)) }
{
    given.get_str(name)
}

/// Whether a word is given for an argument.
fn is_given(given: &ArgMatches<'_>, name: &str) -> bool
    ensures { result ≡ has_word name.now (rows_of (found_of given.now)) }
{
    match given.get_str(name) {
        Some(_) => true,
        None => false,
    }
}

/// The number of an option, else its default; none where its word spells no number.
fn number(given: &ArgMatches<'_>, name: &str, default: u32) -> Option<u32>
    ensures some { IfSome result (IsNumberOf (one_of name.now (rows_of (found_of given.now))) default) }
    ensures none { IfNone result ((n : ℕ) → IsNumberOf (one_of name.now (rows_of (found_of given.now))) default n → ⊥) }
{
    match given.try_get_one::<u32>(name) {
        Ok(Some(number)) => Some(number),
        Ok(None) => Some(default),
        Err(_) => None,
    }
}

/// Whether a flag is given.
fn has_flag(given: &ArgMatches<'_>, name: &str) -> bool
    ensures { result ≡ flag_of (first_of name.now (rows_of (found_of given.now))) }
{
    match given.get_str(name) {
        Some(word) => word == "true",
        None => false,
    }
}
