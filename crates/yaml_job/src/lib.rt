// The types of the job reader, which the definition in specs/ and the code above it share. No code.
#![tactic(auto)]

use yaml_text::Mark;

// A mapping in block form, or in braces.
#[derive(Clone, Copy)]
pub enum Form {
    Block,
    Braces,
}

// The fields of a job.
#[derive(Clone, Copy)]
pub enum Field {
    Sample,
    Panel,
    Seeds,
}

// Those met so far.
#[derive(Clone, Copy)]
pub struct Met {
    pub sample: bool,
    pub panel: bool,
    pub seeds: bool,
}

// What may come next.
#[derive(Clone, Copy)]
pub enum ShapePlace {
    // StreamStart.
    AtStart,
    // The mapping's start.
    AtMapping,
    // A Key, or the mapping's end.
    AtField(Form),
    // The name, behind the Key.
    AtName(Form),
    // The Value, behind the name.
    AtValue { form: Form, field: Field },
    // The one scalar of sample or panel.
    AtText(Form),
    // The bracket of seeds.
    AtList(Form),
    // A seed, or the bracket's end.
    AtEntry(Form),
    // A comma, or the bracket's end.
    BehindSeed(Form),
    // Behind a field in braces: a comma, or the mapping's end.
    BehindField,
    // StreamEnd.
    AtEnd,
}

// What a token does.
#[derive(Clone, Copy)]
pub enum Effect {
    // The reader goes on.
    Passes {
        place: ShapePlace,
        met: Met,
    },
    // A seed is handed over.
    Hands {
        seed: u32,
        place: ShapePlace,
        met: Met,
    },
    // A refusal's number; its mark is the token's start.
    Refuses(u32),
    Finishes,
}

// The closing record, with the count of all seeds handed over.
#[derive(Clone, Copy)]
pub enum Closing {
    Done { count: u32 },
    NotDone { number: u32, mark: Mark, count: u32 },
}

// What a call answers.
#[derive(Clone, Copy)]
pub enum JobAnswer {
    // A seed's value, and how many have been handed over with it.
    Seed { value: u32, count: u32 },
    Closed(Closing),
    // No job comes to this: StreamEnd was not met, and the stream ended, or no seed came for too long.
    Lost,
}
