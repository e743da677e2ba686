// What a token does, by the place in the shape of a job.
#![tactic(auto)]

mod kind;
mod number;

ghost use Rattle.std.specs.Prelude.{◌≡◌};
ghost use Rattle.yaml_job.specs.declared.Effect.TheVariants.{Passes};
ghost use Rattle.yaml_job.specs.Job.{adds, all_met, behind_value, effect, has, holds, meets, named, placed, seed_of};
ghost use Rattle.shape.specs.Kind.{shape_number};

use crate::kind::ShapeKind;
use crate::number::number_in;
use yaml_job::{Effect, Field, Form, Met, ShapePlace};

// Word 12 of a plain scalar's record.
const PLAIN: u32 = 1;

// In a block the next field follows at once.
fn behind_value(g: Form) -> ShapePlace
    ensures { result ≡ behind_value g }
{
    match g {
        Form::Block => ShapePlace::AtField(Form::Block),
        Form::Braces => ShapePlace::BehindField,
    }
}

fn holds(g: Form, f: Field) -> ShapePlace
    ensures { result ≡ holds g f }
{
    match f {
        Field::Sample | Field::Panel => ShapePlace::AtText(g),
        Field::Seeds => ShapePlace::AtList(g),
    }
}

fn has(m: Met, f: Field) -> bool
    ensures { result ≡ has m f }
{
    match f {
        Field::Sample => m.sample,
        Field::Panel => m.panel,
        Field::Seeds => m.seeds,
    }
}

fn adds(f: Field, m: Met) -> Met
    ensures { result ≡ adds f m }
{
    match f {
        Field::Sample => Met { sample: true, ..m },
        Field::Panel => Met { panel: true, ..m },
        Field::Seeds => Met { seeds: true, ..m },
    }
}

// 70: a field met before.
fn meets(g: Form, m: Met, f: Field) -> Effect
    ensures { result ≡ meets g m f }
{
    if has(m, f) {
        return Effect::Refuses(70);
    }
    Effect::Passes {
        place: ShapePlace::AtValue { form: g, field: f },
        met: adds(f, m),
    }
}

// 70: no field has this name.
fn named(g: Form, m: Met, text: &[u8]) -> Effect
    ensures { result ≡ named g m text.now }
{
    if text == b"sample".as_slice() {
        return meets(g, m, Field::Sample);
    }
    if text == b"panel".as_slice() {
        return meets(g, m, Field::Panel);
    }
    if text == b"seeds".as_slice() {
        return meets(g, m, Field::Seeds);
    }
    Effect::Refuses(70)
}

// 72: no such plain number.
fn seed_of(g: Form, m: Met, style: u32, text: &[u8]) -> Effect
    ensures { result ≡ seed_of g m (record { kind = 0; style = style; text = text.now }) }
{
    if style != PLAIN {
        return Effect::Refuses(72);
    }
    match number_in(text) {
        Some(seed) => Effect::Hands {
            seed,
            place: ShapePlace::BehindSeed(g),
            met: m,
        },
        None => Effect::Refuses(72),
    }
}

// The token has its place here, and leads to p.
fn leads(p: ShapePlace, m: Met) -> Effect
    ensures { result ≡ Passes p m }
{
    Effect::Passes { place: p, met: m }
}

// 73: here the token has no place.
#[tactic(auto, unfolding(yaml_job::specs::Job::placed, yaml_job::specs::Job::seed_of, yaml_lexeme::specs::Record::laid, yaml_lexeme::specs::Record::number_of))]
fn placed(p: ShapePlace, m: Met, kind: ShapeKind, style: u32, text: &[u8]) -> Effect
    ensures { result ≡ placed p m (record { kind = shape_number kind; style = style; text = text.now }) }
{
    match (p, kind) {
        (ShapePlace::AtStart, ShapeKind::StreamStart) => leads(ShapePlace::AtMapping, m),
        (ShapePlace::AtMapping, ShapeKind::BlockMappingStart) => leads(
            ShapePlace::AtField(Form::Block),
            m,
        ),
        (ShapePlace::AtMapping, ShapeKind::FlowMappingStart) => leads(
            ShapePlace::AtField(Form::Braces),
            m,
        ),
        (ShapePlace::AtField(g), ShapeKind::Key) => leads(ShapePlace::AtName(g), m),
        (ShapePlace::AtField(Form::Block), ShapeKind::BlockEnd) => leads(ShapePlace::AtEnd, m),
        (ShapePlace::AtField(Form::Braces), ShapeKind::FlowMappingEnd) => leads(
            ShapePlace::AtEnd,
            m,
        ),
        (ShapePlace::AtName(g), ShapeKind::Scalar) => named(g, m, text),
        (ShapePlace::AtValue { form, field }, ShapeKind::Value) => leads(holds(form, field), m),
        (ShapePlace::AtText(g), ShapeKind::Scalar) => leads(behind_value(g), m),
        (ShapePlace::AtList(g), ShapeKind::FlowSequenceStart) => leads(ShapePlace::AtEntry(g), m),
        (ShapePlace::AtEntry(g), ShapeKind::Scalar) => seed_of(g, m, style, text),
        (ShapePlace::AtEntry(g), ShapeKind::FlowSequenceEnd) => leads(behind_value(g), m),
        (ShapePlace::BehindSeed(g), ShapeKind::FlowEntry) => leads(ShapePlace::AtEntry(g), m),
        (ShapePlace::BehindSeed(g), ShapeKind::FlowSequenceEnd) => leads(behind_value(g), m),
        (ShapePlace::BehindField, ShapeKind::FlowEntry) => leads(
            ShapePlace::AtField(Form::Braces),
            m,
        ),
        (ShapePlace::BehindField, ShapeKind::FlowMappingEnd) => leads(ShapePlace::AtEnd, m),
        (ShapePlace::AtEnd, ShapeKind::StreamEnd) => Effect::Finishes,
        _ => Effect::Refuses(73),
    }
}

fn all_met(m: Met) -> bool
    ensures { result ≡ all_met m }
{
    m.sample && m.panel && m.seeds
}

// 71: StreamEnd with a field missing, wherever it stands.
fn of_kind(p: ShapePlace, m: Met, kind: ShapeKind, style: u32, text: &[u8]) -> Effect
    ensures { result ≡ effect p m (record { kind = shape_number kind; style = style; text = text.now }) }
{
    match kind {
        ShapeKind::StreamEnd if !all_met(m) => Effect::Refuses(71),
        _ => placed(p, m, kind, style, text),
    }
}

// What a token does, by words 1 and 12 of its record and the text that it has. They stay numbers: the promise is of every number, and to have the kind of a token
// its record would be read back, written again and compared, twelve words for each token.
pub fn effect(p: ShapePlace, m: Met, kind: u32, style: u32, text: &[u8]) -> Effect
    ensures { result ≡ effect p m (record { kind = kind; style = style; text = text.now }) }
{
    of_kind(p, m, ShapeKind::from(kind), style, text)
}
