// The rules as definitions (specs/), the theorems about them (proofs/), and the types that the open calls share. What each call answers and
// leaves is one definition of specs/.
#![tactic(auto)]

// The entry that means none: an infinite distance, or no node.
pub const NONE: u16 = 65535;

// Why a call refuses, with the number of each, as `number` of specs/Answers.antt gives it. What a call answers is a value or one of these.
#[derive(Clone, Copy, PartialEq, Eq)]
pub enum Refusal {
    // The text is not in the stated form.
    Form = 1,
    // The count of nodes is outside its limits.
    NodeCount = 2,
    // The count of links is above its limit.
    LinkCount = 3,
    // A line names a node of n or more; a line of a file, 0 or a node above n.
    LineNode = 4,
    // Both ends of a line's link are equal.
    EqualEnds = 5,
    // A line's link was given before.
    RepeatedLink = 6,
    // There are fewer or more lines than the first line says.
    LineCount = 7,
    // A lent list is too short.
    ShortList = 8,
    // The lent lists are not those of a survey.
    NotSurvey = 9,
    // A node is n or more.
    NoNode = 10,
    // The tables give no route, or no walk, of the reported length.
    NotAttained = 11,
    // The lent text buffer is too short.
    ShortBuffer = 12,
    // A file is not in the stated form, or a line of it not in its place.
    FileForm = 13,
    // The threshold is above its limit.
    BadThreshold = 14,
}

// The counts of nodes and links of a survey.
#[derive(Clone, Copy, PartialEq, Eq)]
pub struct Size {
    pub nodes: usize,
    pub links: usize,
}

// How a report is attained: the two nodes are one; by low nodes only; through a hub; not at all, since no chain joins them; or by the link
// between the two.
#[derive(Clone, Copy, PartialEq, Eq)]
pub enum Route {
    Itself,
    Low,
    Through(u16),
    NoRoute,
    Link,
}

// The answer to a pair.
#[derive(Clone, Copy, PartialEq, Eq)]
pub struct Answer {
    pub report: u16,
    pub route: Route,
}

// What the two-or-four test finds.
#[derive(Clone, Copy, PartialEq, Eq)]
pub enum Verdict {
    Parted = 0,
    Long = 1,
    Short = 2,
}

// The verdict and the count of searches.
#[derive(Clone, Copy, PartialEq, Eq)]
pub struct TestResult {
    pub verdict: Verdict,
    pub searches: usize,
}
