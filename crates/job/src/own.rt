// The reader's own words, which stand behind those of the stream.
ghost use Rattle.std.specs.Prelude.{◌≡◌};
ghost use Rattle.job.specs.Own.{closed_words, field_of, form_of, place_of, place_words, reader_in, reader_words, reading_in, reading_words, refused_in};

use crate::{JOB_WORDS, Reader, Standing};
use driver::held::HELD_WORDS;
use yaml_job::{Closing, Field, Form, Met, ShapePlace};
use yaml_text::Mark;

pub(crate) const OWN_WORDS: usize = 11;

// The place in the shape; or that the job is closed.
const PLACE: usize = HELD_WORDS;

const FORM: usize = HELD_WORDS + 1;

const FIELD: usize = HELD_WORDS + 2;

// The fields met: sample, panel, seeds.
const MET: usize = HELD_WORDS + 3;

const COUNT: usize = HELD_WORDS + 6;

// The refusal's number and its mark.
const NUMBER: usize = HELD_WORDS + 7;

const MARK: usize = HELD_WORDS + 8;

// In place of a place's number, since what is held between calls is words.
const DONE: u32 = 11;

const NOT_DONE: u32 = 12;

// No From: neither the trait nor the types are this crate's. So it is with fields and places.
fn form_of(n: u32) -> Form
    ensures { result ≡ form_of n }
{
    if n == 0 { Form::Block } else { Form::Braces }
}

fn field_of(n: u32) -> Field
    ensures { result ≡ field_of n }
{
    match n {
        0 => Field::Sample,
        1 => Field::Panel,
        _ => Field::Seeds,
    }
}

// The numbers of a place, its form and its field: 0 where it has none.
fn place_words(p: ShapePlace) -> [u32; 3]
    ensures { result ≡ place_words p }
{
    match p {
        ShapePlace::AtStart => [0, 0, 0],
        ShapePlace::AtMapping => [1, 0, 0],
        ShapePlace::AtField(g) => [2, g as u32, 0],
        ShapePlace::AtName(g) => [3, g as u32, 0],
        ShapePlace::AtValue { form, field } => [4, form as u32, field as u32],
        ShapePlace::AtText(g) => [5, g as u32, 0],
        ShapePlace::AtList(g) => [6, g as u32, 0],
        ShapePlace::AtEntry(g) => [7, g as u32, 0],
        ShapePlace::BehindSeed(g) => [8, g as u32, 0],
        ShapePlace::BehindField => [9, 0, 0],
        ShapePlace::AtEnd => [10, 0, 0],
    }
}

fn place_of(n: u32, form: Form, field: Field) -> ShapePlace
    ensures { result ≡ place_of n form field }
{
    match n {
        0 => ShapePlace::AtStart,
        1 => ShapePlace::AtMapping,
        2 => ShapePlace::AtField(form),
        3 => ShapePlace::AtName(form),
        4 => ShapePlace::AtValue { form, field },
        5 => ShapePlace::AtText(form),
        6 => ShapePlace::AtList(form),
        7 => ShapePlace::AtEntry(form),
        8 => ShapePlace::BehindSeed(form),
        9 => ShapePlace::BehindField,
        _ => ShapePlace::AtEnd,
    }
}

fn closed_words(c: Closing) -> [u32; OWN_WORDS]
    ensures { result ≡ closed_words c }
{
    match c {
        Closing::Done { count } => [DONE, 0, 0, 0, 0, 0, count, 0, 0, 0, 0],
        Closing::NotDone {
            number,
            mark,
            count,
        } => [
            NOT_DONE, 0, 0, 0, 0, 0, count, number, mark.index, mark.line, mark.col,
        ],
    }
}

fn reading_words(s: Standing) -> [u32; OWN_WORDS]
    ensures { result ≡ reading_words s.place s.met s.count }
{
    let p = place_words(s.place);
    let met = s.met;
    [
        p[0],
        p[1],
        p[2],
        met.sample as u32,
        met.panel as u32,
        met.seeds as u32,
        s.count,
        0,
        0,
        0,
        0,
    ]
}

#[tactic(auto, unfolding(crate::specs::Own::reader_words))]
pub(crate) fn reader_words(r: Reader) -> [u32; OWN_WORDS]
    ensures { result ≡ reader_words r }
{
    match r {
        Reader::Reading(s) => reading_words(s),
        Reader::Ended(c) => closed_words(c),
    }
}

fn refused_in(state: &[u32; JOB_WORDS]) -> Closing
    ensures { result ≡ refused_in state.now }
{
    let mark = Mark {
        index: state[MARK],
        line: state[MARK + 1],
        col: state[MARK + 2],
    };
    Closing::NotDone {
        number: state[NUMBER],
        mark: mark,
        count: state[COUNT],
    }
}

fn reading_in(state: &[u32; JOB_WORDS]) -> Reader
    ensures { result ≡ reading_in state.now }
{
    let met = Met {
        sample: state[MET] != 0,
        panel: state[MET + 1] != 0,
        seeds: state[MET + 2] != 0,
    };
    Reader::Reading(Standing {
        place: place_of(state[PLACE], form_of(state[FORM]), field_of(state[FIELD])),
        met,
        count: state[COUNT],
    })
}

pub(crate) fn reader_in(state: &[u32; JOB_WORDS]) -> Reader
    ensures { result ≡ reader_in state.now }
{
    match state[PLACE] {
        DONE => Reader::Ended(Closing::Done {
            count: state[COUNT],
        }),
        NOT_DONE => Reader::Ended(refused_in(state)),
        _ => reading_in(state),
    }
}
