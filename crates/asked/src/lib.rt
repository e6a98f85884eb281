// What the words of the command ask for: `list` for the operators of each job behind it, `rgb` for pages that start in RGB.
#![tactic(auto)]

use std::io;
use std::rt::Env;
use text::say;

// The operators too, and pages that start in gray, or else in RGB.
#[derive(Clone, Copy)]
pub struct Asked {
    pub listed: bool,
    pub gray: bool,
}

// What is asked for by no word.
pub fn nothing() -> Asked {
    Asked {
        listed: false,
        gray: true,
    }
}

// An argument: one of the two words, or a name.
#[derive(Clone, Copy)]
enum Word {
    List,
    Rgb,
    Name,
}

// What argument i is; what is longer than the words is a name.
fn word_at<E: Env>(rt: &E, i: usize) -> Word {
    let mut room = [0u8; 5];
    match rt.arg(i, &mut room) {
        Ok(n) => match &room[..n] {
            b"list" => Word::List,
            b"rgb" => Word::Rgb,
            _ => Word::Name,
        },
        Err(_) => Word::Name,
    }
}

// What is asked for behind argument i.
pub fn behind<E: Env>(rt: &E, asked: Asked, i: usize) -> Asked {
    match word_at(rt, i) {
        Word::List => Asked {
            listed: true,
            ..asked
        },
        Word::Rgb => Asked {
            gray: false,
            ..asked
        },
        Word::Name => asked,
    }
}

// Whether argument i is a name.
pub fn is_name<E: Env>(rt: &E, i: usize) -> bool {
    matches!(word_at(rt, i), Word::Name)
}

// Says how to ask for the other start, in which a job has no fault of its colours.
pub fn say_other_start<P: Print>(out: &P, gray: bool) -> io::Result<()> {
    if gray {
        say(
            out,
            b"; or judge it with --rgb (in a program: rgb other than 0): where pages start in RGB, as last year, this is no fault",
        )
    } else {
        say(
            out,
            b"; or judge it without --rgb (in a program: rgb 0): where pages start in gray, this is no fault",
        )
    }
}
