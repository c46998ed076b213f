//! Rows: litmus texts, how their tasks are asked for steps, and what comes of that.

use crate::play::{PlayError, Scene, played};
use crate::words::words_of;
use prepared_program::place_list::parse_places;
use prepared_program::program_layout::Place;
use prepared_program::program_sites::Settings;
use prepared_program::step_schedule::Schedule;
use std::alloc::{AllocError, Global};
use test_rows::Tried;
use test_rows::texts::Texts;
use watch_word::Layout;

/// The rules and the schedule of a text of one task.
const ALONE: &str = "unwatched 0x1000";

/// A scene, and what is to come of it.
#[derive(Drop)]
struct Row {
    scene: Scene,
    wanted: String,
}

/// Tries the row of a line. Of one that comes otherwise the words that are wanted are printed too, since it may call
/// them by a name.
pub fn try_row(alloc: Global, texts: &Texts, line: &str) -> Result<Tried, AllocError> {
    let Some(Row { scene, wanted }) = read(alloc, texts, line)? else {
        return Tried::no_row(alloc, line);
    };
    let comes = match played(alloc, &scene) {
        Ok(words) => words,
        Err(PlayError::OutOfMemory) => return Err(AllocError),
        Err(error) => format!(in alloc; "{error}")?,
    };
    if comes == wanted {
        return Ok(Tried::AsSaid);
    }
    Ok(Tried::Otherwise(format!(in alloc; "{line}\nwanted: {wanted}\ncomes:  {comes}")?))
}

/// The row of a line: a scene, `=>`, and the words of what is to come of it.
fn read(alloc: Global, texts: &Texts, line: &str) -> Result<Option<Row>, AllocError> {
    let Some((scene, wanted)) = line.split_once(" => ") else {
        return Ok(None);
    };
    match (
        scene_of(alloc, texts, scene)?,
        words_of(alloc, texts, wanted)?,
    ) {
        (Some(scene), Some(wanted)) => Ok(Some(Row { scene, wanted })),
        _ => Ok(None),
    }
}

/// The scene that begins with a word for its kind.
fn scene_of(alloc: Global, texts: &Texts, line: &str) -> Result<Option<Scene>, AllocError> {
    let Some((kind, rest)) = line.split_once(' ') else {
        return Ok(None);
    };
    match kind {
        "play" => called(alloc, texts, rest),
        "one" => framed(alloc, rest),
        _ => Ok(None),
    }
}

/// A scene that has its text by a name: `NAME RULES SCHEDULE PLACES`.
fn called(alloc: Global, texts: &Texts, line: &str) -> Result<Option<Scene>, AllocError> {
    let Some((name, course)) = line.split_once(' ') else {
        return Ok(None);
    };
    match texts.get(name) {
        Some(text) => with_course(alloc, String::from_str(alloc, text)?, course),
        None => Ok(None),
    }
}

/// A scene of one task with one variable `x`: `TYPE VALUE STATEMENTS`, with the value that it has at first.
fn framed(alloc: Global, line: &str) -> Result<Option<Scene>, AllocError> {
    let Some((contents, rest)) = line.split_once(' ') else {
        return Ok(None);
    };
    let Some((value, statements)) = rest.split_once(' ') else {
        return Ok(None);
    };
    let text = format!(in alloc;
        "C one\n{{ {contents} x = {value}; }}\nP0({contents} *x)\n{{\nint r0;\n{statements}\n}}\nexists (true)\n"
    )?;
    with_course(alloc, text, ALONE)
}

/// The scene of a text and of the words `RULES SCHEDULE PLACES`, where the last may be missing.
fn with_course(alloc: Global, text: String, course: &str) -> Result<Option<Scene>, AllocError> {
    let Some((rules, rest)) = course.split_once(' ') else {
        return Ok(None);
    };
    let (schedule, places) = rest.split_once(' ').unwrap_or((rest, ""));
    let schedule = Schedule::parse(alloc, schedule)?;
    let Some(places) = parse_places(alloc, places)? else {
        return Ok(None);
    };
    match (settings_of(rules, places), schedule) {
        (Some(settings), Some(schedule)) => Ok(Some(Scene {
            text,
            settings,
            schedule,
        })),
        _ => Ok(None),
    }
}

/// The settings of a word for the rules, with these places: `watched`, where each access is watched that may be;
/// `unwatched`, where none is, unless it is the thousandth that is asked for; or `turns=N`, where also a wait is stuck
/// after so many failed tries.
fn settings_of(word: &str, places: Vec<Place>) -> Option<Settings> {
    let (skip, turns) = match word {
        "watched" => (0, 1000),
        "unwatched" => (1000, 1000),
        other => (1000, other.strip_prefix("turns=")?.parse().ok()?),
    };
    Some(Settings {
        slots: 64,
        skip,
        randomize: false,
        seed: 1,
        value_change_only: true,
        plain_writes_atomic: true,
        layout: Layout::W64,
        turns,
        places,
    })
}
