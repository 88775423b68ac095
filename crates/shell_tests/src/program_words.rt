//! Jobs that words ask for, with ample memory.
use command_line::{HistoryCall, Job, Task, job};
use std::alloc::{AllocError, Global};
use std::test::Fail;

/// What of a job is looked at: the task, whether an image is named, the path, the file, the view, where a
/// driver answers and where it is ordered, the part, how many versions where that is given, and whether
/// progress is told.
type Looked<'a> = (Task, bool, [Option<&'a str>; 6], Option<u32>, bool);

/// Words, and what is asked for; none where they are refused.
const ROWS: [(&str, Option<Looked<'static>>); 15] = [
    (
        "put disk.image notes.txt /notes --progress",
        Some((
            Task::Put,
            true,
            [Some("/notes"), Some("notes.txt"), None, None, None, None],
            None,
            true,
        )),
    ),
    (
        "get disk.image /notes notes.txt @5",
        Some((
            Task::Get,
            true,
            [
                Some("/notes"),
                Some("notes.txt"),
                Some("@5"),
                None,
                None,
                None,
            ],
            None,
            false,
        )),
    ),
    (
        "serve answers orders --history 16",
        Some((
            Task::Serve,
            false,
            [None, None, None, Some("answers"), Some("orders"), None],
            Some(16),
            false,
        )),
    ),
    (
        "format --part disk.part",
        Some((
            Task::FormatPart,
            false,
            [None, None, None, None, None, Some("disk.part")],
            None,
            false,
        )),
    ),
    (
        "serve --part=disk.part",
        Some((
            Task::ServePart,
            false,
            [None, None, None, None, None, Some("disk.part")],
            None,
            false,
        )),
    ),
    (
        "diff disk.image",
        Some((Task::LastChange, true, [None; 6], None, false)),
    ),
    (
        "diff disk.image @2",
        Some((
            Task::Diff,
            true,
            [None, None, Some("@2"), None, None, None],
            None,
            false,
        )),
    ),
    (
        "goto disk.image 5",
        Some((
            Task::History(HistoryCall::Goto),
            true,
            [None; 6],
            None,
            false,
        )),
    ),
    ("help", Some((Task::Help, false, [None; 6], None, false))),
    (
        "help put",
        Some((Task::Help, false, [None; 6], None, false)),
    ),
    ("help mount", None),
    ("format", None),
    ("format x --part disk.part", None),
    ("serve answers", None),
    ("serve a o --part disk.part", None),
];

/// Words that are parted by spaces.
fn words_of(alloc: Global, line: &str) -> Result<Vec<String>, AllocError> {
    let mut words = Vec::new(alloc);
    for word in line.split(' ') {
        words.push(String::from_str(alloc, word)?)?;
    }
    Ok(words)
}

fn looked_at<'a>(job: &Job<'a>) -> Looked<'a> {
    let names = [
        job.path,
        job.file,
        job.view,
        job.answers,
        job.orders,
        job.part,
    ];
    let history = if job.is_history_given {
        Some(job.history)
    } else {
        None
    };
    (
        job.command,
        job.image.is_some(),
        names,
        history,
        job.progress,
    )
}

/// Whether words ask for this.
fn is_asked(
    alloc: Global,
    line: &str,
    wanted: Option<Looked<'static>>,
) -> Result<bool, AllocError> {
    let words = words_of(alloc, line)?;
    let asked = job(alloc, words.as_slice()).ok();
    Ok(match (asked, wanted) {
        (Some(job), Some(wanted)) => looked_at(&job) == wanted,
        (None, None) => true,
        _ => false,
    })
}

#[test]
fn words_are_read_as_a_job(rt: HostRuntime) -> Result<(), Fail> {
    let words = words_of(rt.alloc(), "format disk.image --blocks 64")?;
    let wanted = Job {
        command: Task::Format,
        image: Some("disk.image"),
        page: 256,
        is_page_given: false,
        pages: 16,
        is_pages_given: false,
        blocks: 64,
        is_blocks_given: true,
        history: 8,
        is_history_given: false,
        answers: None,
        orders: None,
        part: None,
        refusal: None,
        count: 1,
        checkpoint: None,
        serial: None,
        word: None,
        exit_code: false,
        stop: false,
        path: None,
        file: None,
        view: None,
        other: None,
        progress: false,
        mirror: false,
        skip_links: false,
        salvage: false,
        changes: false,
    };
    assert_eq!(rt; job(rt.alloc(), words.as_slice()).ok(), Some(wanted));
    for (line, wanted) in ROWS {
        assert!(rt; is_asked(rt.alloc(), line, wanted)?, "{line}");
    }
    Ok(())
}
