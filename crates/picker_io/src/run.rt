// One run: a catalogue read to its end, picked for with the largest allowance, and its answer written to standard output.
use crate::{answer, input};
use picker::{MOST_LINES, SELECTION_LEAST, SHEET_LEAST, WORK_LEAST};
use std::fmt::InlineText;
use std::io;
use std::io::{Eprint, Print, Read};

// Room for the words of a reason.
const REASON: usize = 128;

// The system's words for why a call failed, without the number behind them.
fn words_of(reason: &str) -> &str {
    let Some((words, _)) = reason.split_once(" (os error ") else {
        return reason;
    };
    words
}

// Says on standard error what failed and why. That this can't be said can't be told anywhere.
pub fn fail<E: Eprint>(rt: &E, what: &str, error: io::Error) {
    let reason = InlineText::<REASON>::of(error);
    let words = words_of(reason.as_str());
    let _ = eprintln!(rt; "{what}: {words}");
}

// Writes the answer to the catalogue that the reader hands out. Where it can't be read, the name and the reason go to standard error, and
// nothing is written to standard output.
pub fn run<P: Print + Eprint, R: Read>(rt: &P, from: &mut R, name: &str) {
    let mut text = input::room();
    let size = match input::read_all(from, &mut text) {
        Ok(size) => size,
        Err(failed) => {
            fail(rt, name, failed.error);
            return;
        }
    };
    let mut selection = [0u8; SELECTION_LEAST];
    let mut sheet = [0u8; SHEET_LEAST];
    let mut work = [0u8; WORK_LEAST];
    let p = picker::pick(
        &text[..size],
        &mut selection,
        &mut sheet,
        &mut work,
        MOST_LINES,
    );
    let told = answer::told(p.number, p.line);
    let written = rt.write_all(answer::text_of(p.number, p.size, &selection, &sheet, &told));
    if let Err(error) = written {
        fail(rt, "standard output", error);
    }
}
