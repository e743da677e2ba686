// What a job is run with.

// The names of its files: none is standard input or output. Whether an empty list of seeds is allowed.
#[derive(Clone, Copy)]
pub(crate) struct Names<'a> {
    pub sheet: Option<&'a str>,
    pub record: Option<&'a str>,
    pub seeds: Option<&'a str>,
    pub allowed: bool,
}

// Whether both are named, and alike.
fn is_twice(a: Option<&str>, b: Option<&str>) -> bool {
    a.is_some() & (a == b)
}

impl<'a> Names<'a> {
    pub(crate) fn clash(self) -> bool {
        is_twice(self.sheet, self.record)
            | is_twice(self.sheet, self.seeds)
            | is_twice(self.record, self.seeds)
    }
}
