//! The commands `explain` and `ask`, which answer the calls of a log one by one.
ghost use Rattle.std.specs.Prelude.{◌≡◌};
ghost use Rattle.stir_cmd.specs.Outside.{outside_of};
ghost use Rattle.stir_cmd.specs.Explained.{ask_course, explain_course};
ghost use Rattle.stir_words.specs.Seen.{asking_view, judging_view};

use crate::settings::settings_of;
use crate::verify::end_at;
use single_calls::{Asker, Explainer, ask_log, explain_log};
use std::alloc::Global;
use std::thread::Threads;
use stir_files::{Materials, read_materials, read_world};
use stir_outside::{OneThread, Shelf, Sink, Source};
use stir_words::{Asking, Judging};

/// Reads the named files, and says of each call of the log which rules it meets, up to the first that it breaks; if a
/// file can't be had, it says so.
pub(crate) fn explain<R: Threads + Sync, S: Shelf, I: Source, O: Sink>(
    rt: &R,
    alloc: Global,
    judging: &Judging<'_>,
    shelf: &mut S,
    input: &mut I,
    sink: &mut O,
) -> u8
    ensures ran { (explain_course (judging_view judging.now)).Came
        (outside_of S.Shelf I.Source O.Sink shelf.old input.old sink.old)
        (outside_of S.Shelf I.Source O.Sink shelf.new input.new sink.new) result }
    ensures same_files { S.files shelf.new ≡ S.files shelf.old }
{
    match read_materials(alloc, shelf, &OneThread, judging) {
        Ok(materials) => {
            let Materials { world, answers } = materials;
            let mut explainer = Explainer::new(settings_of(&judging.settings), world, &answers);
            explain_log(rt, alloc, &mut explainer, shelf, input, sink)
        }
        Err(stop) => end_at(alloc, &stop, sink),
    }
}

/// Reads the named files, and says what a provider of signatures is asked for the calls of the log, each question once;
/// if a file can't be had, it says so.
pub(crate) fn ask<R: Threads + Sync, S: Shelf, I: Source, O: Sink>(
    rt: &R,
    alloc: Global,
    asking: &Asking<'_>,
    shelf: &mut S,
    input: &mut I,
    sink: &mut O,
) -> u8
    ensures ran { (ask_course (asking_view asking.now)).Came
        (outside_of S.Shelf I.Source O.Sink shelf.old input.old sink.old)
        (outside_of S.Shelf I.Source O.Sink shelf.new input.new sink.new) result }
    ensures same_files { S.files shelf.new ≡ S.files shelf.old }
{
    match read_world(alloc, shelf, asking) {
        Ok(world) => {
            let mut asker = Asker::new(alloc, settings_of(&asking.settings), world);
            ask_log(rt, alloc, &mut asker, shelf, input, sink)
        }
        Err(stop) => end_at(alloc, &stop, sink),
    }
}
