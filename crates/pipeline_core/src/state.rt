// What is said of a segment, and what has become of it.

/// What an answer says of a segment.
#[derive(Clone, Copy, Debug, PartialEq, Eq, Drop)]
pub enum Outcome {
    Arrived,
    NotHere,
}

/// What has become of a segment. An outstanding one has the link that was asked.
#[derive(Clone, Copy, Debug, PartialEq, Eq, Drop)]
pub enum SegmentState {
    Open,
    Outstanding(u32),
    Arrived,
    Exhausted,
}
