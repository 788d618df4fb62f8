// The commands: what the arguments can ask for, and how it runs.
ghost use Rattle.std.specs.Prelude.{◌≡◌, None, Some, codes, if◌then◌else◌, map, string_bytes};
ghost use Rattle.std.specs.Option.{option_map};
ghost use Rattle.std.specs.Str.{bytes_eq};
ghost use Rattle.vms_io.specs.Told.{outlet};
ghost use Rattle.vms_commands.specs.Endings.{ending_of};
ghost use Rattle.vms_board_commands.specs.Runs.{Runs, frame};
ghost use Rattle.vms_cli.specs.Commands.{Analyze, asked, asked_of, pair_of, single_of, task_of, triple_of};

mod analyze;
mod check;
mod convert;
mod counter;
mod drill;
mod load;
mod pack;
mod play;
mod save;
mod show;

use crate::Words;
use crate::boards::{IsaBoard, SavedBoard};
use crate::kinds::{Loading, load, save};
use analyze::analyze_input;
use check::{check, check_of};
use convert::{convert, convert_of};
use counter::{counter, counter_of};
use drill::{drill, drill_of};
use load::load_of;
use pack::{pack, pack_of};
use play::{play, play_of};
use save::save_of;
use show::{show, show_of};
use std::alloc::Global;
use vms_commands::{BoardWord, Ending, SetWord};
use vms_io::{Shelf, Sink, Source};

/// The command that the arguments form.
#[derive(Clone, Copy)]
pub(crate) enum Command<'a> {
    /// `show SET`
    Show {
        set: SetWord<'a>,
    },
    /// `convert SET`
    Convert {
        set: SetWord<'a>,
    },
    /// `analyze`
    Analyze,
    /// `pack SET VALUES`
    Pack {
        set: SetWord<'a>,
        values: &'a str,
    },
    /// `check OLD NEW`
    Check {
        old: SetWord<'a>,
        new: SetWord<'a>,
    },
    /// `counter OLD NEW`
    Counter {
        old: SetWord<'a>,
        new: SetWord<'a>,
    },
    /// `save BOARD SET SCRIPT`
    Save {
        board: SavedBoard,
        script: &'a str,
    },
    /// `load BOARD SCRIPT`
    Load {
        board: BoardWord,
        script: &'a str,
    },
    /// `play BOARD SCRIPT`
    Play {
        board: IsaBoard,
        script: &'a str,
    },
    /// `drill BOARD SEED COUNT`
    Drill {
        board: IsaBoard,
        seed: u64,
        count: u32,
    },
}

/// Returns the command that `words` form, if any.
pub(crate) fn command_of(words: &[String]) -> Option<Command<'_>>
    ensures { option_map asked result ≡ asked_of (map (λ w. string_bytes w) words.now) }
{
    match words {
        [name] => bare_of(name.as_str()),
        [name, set] => single_of(name.as_str(), set.as_str()),
        [name, one, other] => pair_of(name.as_str(), one.as_str(), other.as_str()),
        [name, one, two, three] => triple_of(
            name.as_str(),
            one.as_str(),
            two.as_str(),
            three.as_str(),
        ),
        _ => None,
    }
}

// Returns the command of one word.
fn bare_of(name: &str) -> Option<Command<'static>>
    ensures { option_map asked result ≡ (if bytes_eq name.now (codes "analyze")
        then Some Analyze else None) }
{
    if name == "analyze" {
        Some(Command::Analyze)
    } else {
        None
    }
}

// Returns the command of two words.
#[tactic(auto, unfolding(crate::specs::Commands::single_of))]
fn single_of<'a>(name: &str, set: &'a str) -> Option<Command<'a>>
    ensures { option_map asked result ≡ single_of name.now set.now }
{
    if name == "show" {
        show_of(set)
    } else if name == "convert" {
        convert_of(set)
    } else {
        None
    }
}

// Returns the command of three words.
#[tactic(auto, unfolding(crate::specs::Commands::pair_of))]
fn pair_of<'a>(name: &str, one: &'a str, other: &'a str) -> Option<Command<'a>>
    ensures { option_map asked result ≡ pair_of name.now one.now other.now }
{
    if name == "check" {
        check_of(one, other)
    } else if name == "counter" {
        counter_of(one, other)
    } else if name == "pack" {
        pack_of(one, other)
    } else if name == "load" {
        load_of(one, other)
    } else if name == "play" {
        play_of(one, other)
    } else {
        None
    }
}

// Returns the command of four words.
#[tactic(auto, unfolding(crate::specs::Commands::triple_of))]
fn triple_of<'a>(name: &str, one: &str, two: &str, three: &'a str) -> Option<Command<'a>>
    ensures { option_map asked result ≡ triple_of name.now one.now two.now three.now }
{
    if name == "drill" {
        drill_of(one, two, three)
    } else if name == "save" {
        save_of(one, two, three)
    } else {
        None
    }
}

/// Runs the command that `words` form.
///
/// # Errors
///
/// Those of the command, or [`Ending::BadWords`] if there is none.
#[tactic(auto, using(crate::proofs::OutcomeLaws::asked_runs))]
pub(crate) fn run<I: Source, O: Sink, H: Shelf>(
    alloc: Global,
    words: &Words,
    input: &mut I,
    out: &mut O,
    shelf: &mut H,
) -> Result<(), Ending>
    ensures runs { Runs (task_of (asked_of words.now))
        (frame I.Source O.Sink H.Shelf input.old out.old shelf.old)
        (frame I.Source O.Sink H.Shelf input.new out.new shelf.new) (ending_of result) }
    ensures unnamed { asked_of words.now ≡ None → outlet O.Sink out.new ≡ outlet O.Sink out.old }
{
    match words.command() {
        Some(Command::Show { set }) => show(alloc, set, input, out, shelf),
        Some(Command::Convert { set }) => convert(alloc, set, input, out, shelf),
        Some(Command::Analyze) => analyze_input(alloc, input, out),
        Some(Command::Pack { set, values }) => pack(alloc, set, values, out, shelf),
        Some(Command::Check { old, new }) => check(alloc, old, new, out, shelf),
        Some(Command::Counter { old, new }) => counter(alloc, old, new, out, shelf),
        Some(Command::Save { board, script }) => save(alloc, board, script, out, shelf),
        Some(Command::Load { board, script }) => {
            load(alloc, Loading { board, script }, input, out, shelf)
        }
        Some(Command::Play { board, script }) => play(alloc, board, script, out, shelf),
        Some(Command::Drill { board, seed, count }) => drill(alloc, board, seed, count, out),
        None => Err(Ending::BadWords),
    }
}
