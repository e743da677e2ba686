// The kinds of tokens that have a place in the shape of a job.
ghost use Rattle.shape.specs.Kind.{Numbers};

#[derive(Clone, Copy)]
pub(crate) enum ShapeKind {
    StreamStart,
    StreamEnd,
    BlockMappingStart,
    BlockEnd,
    FlowSequenceStart,
    FlowSequenceEnd,
    FlowMappingStart,
    FlowMappingEnd,
    FlowEntry,
    Key,
    Value,
    Scalar,
    // Any other kind.
    Other,
}

// By word 1 of a record.
impl From<u32> for ShapeKind {
    ghost from_gives = { Numbers };

    fn from(n: u32) -> ShapeKind {
        match n {
            1 => ShapeKind::StreamStart,
            2 => ShapeKind::StreamEnd,
            9 => ShapeKind::BlockMappingStart,
            10 => ShapeKind::BlockEnd,
            11 => ShapeKind::FlowSequenceStart,
            12 => ShapeKind::FlowSequenceEnd,
            13 => ShapeKind::FlowMappingStart,
            14 => ShapeKind::FlowMappingEnd,
            16 => ShapeKind::FlowEntry,
            17 => ShapeKind::Key,
            18 => ShapeKind::Value,
            22 => ShapeKind::Scalar,
            _ => ShapeKind::Other,
        }
    }
}
