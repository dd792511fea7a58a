// Answers each of the files that its arguments name, under a line with the name: the bench samples and some more.
#![tactic(auto)]

use picker_io::run;
use std::env::{Env, FillError};
use std::{fs, str};

// The longest name of a file.
const PATH_MAX: usize = 4096;

// A file's name, and its answer.
fn answer(rt: &HostRuntime, path: &str) {
    match fs::open(rt, path) {
        Ok(mut file) => {
            let _ = println!(rt; "{path}");
            run::run(rt, &mut file, path);
        }
        Err(error) => run::fail(rt, path, error),
    }
}

fn main(rt: HostRuntime) {
    for i in 1..usize::MAX {
        let mut path = [0u8; PATH_MAX];
        // An argument that is too long for a name counts as an empty one.
        let length = match rt.arg(i, &mut path) {
            Ok(length) => length,
            Err(FillError::TooLong) => 0,
            Err(FillError::NotPresent) => break,
        };
        match str::from_utf8(&path[..length]) {
            Ok(path) => answer(&rt, path),
            Err(_) => {
                let _ = eprintln!(rt; "argument {i} is no text");
            }
        }
    }
}
