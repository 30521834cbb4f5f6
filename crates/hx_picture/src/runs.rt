use crate::actors::Actors;
use crate::errors::{MOST_DRAWN, PictureError};
use std::alloc::{AllocError, Global};

/// The name of a post: its entry, and its place among the posts of that entry.
#[derive(Clone, Copy, PartialEq, Eq)]
pub struct PostName {
    pub entry: usize,
    pub place: usize,
}

/// What an actor took.
#[derive(Clone, Copy, PartialEq, Eq)]
pub enum Taken {
    Tick,
    Halt,
    Delivered(PostName),
}

/// A post as its trace line tells it.
#[derive(Clone, Copy)]
pub struct Post<'a> {
    pub name: PostName,
    pub to: &'a str,
    pub kind: &'a str,
    /// The fields of the message: names and numbers in turn.
    pub fields: &'a str,
}

/// An entry as its trace line tells it.
#[derive(Clone, Copy)]
pub struct Entry<'a> {
    pub actor: &'a str,
    pub taken: Taken,
}

/// A call as its line of the report tells it: at which entry it began, and the line from there on.
#[derive(Clone, Copy)]
pub struct Call<'a> {
    pub begin: usize,
    pub caller: &'a str,
    pub told: &'a str,
}

/// What a report tells of the run of a space. Entry n is the n-th from 1.
#[derive(Drop)]
pub struct Run<'a> {
    pub space: &'a str,
    pub actors: Actors<'a>,
    pub calls: Vec<Call<'a>>,
    pub entries: Vec<Entry<'a>>,
    pub posts: Vec<Post<'a>>,
}

impl<'a> Run<'a> {
    /// A run of that space of which nothing is told yet.
    fn new(alloc: Global, space: &'a str) -> Self {
        Run {
            space,
            actors: Actors::new(alloc),
            calls: Vec::new(alloc),
            entries: Vec::new(alloc),
            posts: Vec::new(alloc),
        }
    }
}

/// Reads a report with its trace: the runs of its spaces, in their order. They have to have
/// entries, and not too many of them.
pub fn read_runs(alloc: Global, text: &str) -> Result<Vec<Run<'_>>, PictureError> {
    let runs = read_lines(alloc, text)?;
    let mut entries = 0_usize;
    for run in &runs {
        entries = entries.saturating_add(run.entries.len());
    }
    match entries {
        0 => Err(PictureError::NoTrace),
        entries if entries > MOST_DRAWN => Err(PictureError::TooLong { entries }),
        _ => Ok(runs),
    }
}

/// Reads the lines of a report.
fn read_lines(alloc: Global, text: &str) -> Result<Vec<Run<'_>>, PictureError> {
    let mut runs = Vec::new(alloc);
    let mut number = 0_usize;
    for line in text.lines() {
        number = number.saturating_add(1);
        read_line(alloc, &mut runs, line, number)?;
    }
    for run in &mut runs {
        run.actors.sort();
    }
    Ok(runs)
}

/// Reads one line of a report. The first has to be a report's, and calls, entries and posts are
/// those of the space before them; all other lines are passed over.
fn read_line<'a>(
    alloc: Global,
    runs: &mut Vec<Run<'a>>,
    line: &'a str,
    number: usize,
) -> Result<(), PictureError> {
    let fault = PictureError::NoReport { line: number };
    if number == 1 {
        return if line.starts_with("report ") {
            Ok(())
        } else {
            Err(fault)
        };
    }
    let (word, rest) = line.split_once(" ").unwrap_or((line, ""));
    match word {
        "space" => runs.push(Run::new(alloc, rest))?,
        "call" | "entry" | "post" => {
            let run = runs.last_mut().ok_or(fault)?;
            add_to(run, word, rest, fault)?;
        }
        _ => {}
    }
    Ok(())
}

/// Adds what a line tells of a call, an entry or a post.
fn add_to<'a>(
    run: &mut Run<'a>,
    word: &str,
    rest: &'a str,
    fault: PictureError,
) -> Result<(), PictureError> {
    match word {
        "call" => run.calls.push(call_of(rest).ok_or(fault)?)?,
        "entry" => add_entry(run, entry_of(rest).ok_or(fault)?)?,
        _ => add_post(run, post_of(rest).ok_or(fault)?)?,
    }
    Ok(())
}

fn add_entry<'a>(run: &mut Run<'a>, entry: Entry<'a>) -> Result<(), AllocError> {
    run.actors.add(entry.actor)?;
    run.entries.push(entry)?;
    Ok(())
}

fn add_post<'a>(run: &mut Run<'a>, post: Post<'a>) -> Result<(), AllocError> {
    run.actors.add(post.to)?;
    run.posts.push(post)?;
    Ok(())
}

/// `u1.1 begin 1 end 13 put ..`.
fn call_of(rest: &str) -> Option<Call<'_>> {
    let (caller, rest) = rest.split_once(" begin ")?;
    let (begin, rest) = rest.split_once(" end ")?;
    let (_end, told) = rest.split_once(" ")?;
    let begin = begin.parse::<usize>().ok()?;
    Some(Call {
        begin,
        caller,
        told,
    })
}

/// `1 u1 tick`, `16 s1 halt`, `2 s1 deliver 1.0`.
fn entry_of(rest: &str) -> Option<Entry<'_>> {
    let (_number, rest) = rest.split_once(" ")?;
    let (actor, input) = rest.split_once(" ")?;
    let taken = match input {
        "tick" => Taken::Tick,
        "halt" => Taken::Halt,
        _ => Taken::Delivered(name_of(input.strip_prefix("deliver ")?)?),
    };
    Some(Entry { actor, taken })
}

/// `2.0 s2 update epoch 1 region 0 version 1`.
fn post_of(rest: &str) -> Option<Post<'_>> {
    let (name, rest) = rest.split_once(" ")?;
    let (to, message) = rest.split_once(" ")?;
    let (kind, fields) = message.split_once(" ").unwrap_or((message, ""));
    Some(Post {
        name: name_of(name)?,
        to,
        kind,
        fields,
    })
}

/// `2.0`.
fn name_of(word: &str) -> Option<PostName> {
    let (entry, place) = word.split_once(".")?;
    let entry = entry.parse::<usize>().ok()?;
    let place = place.parse::<usize>().ok()?;
    Some(PostName { entry, place })
}
