//! The calls of include/tevasulim.h, as Rattle makes them. Each but `triangulate` has its contract
//! here; `tevasulim_c` makes that one, and hands all to C.
#![tactic(auto)]

mod beyond;
mod calls;
mod conflicts;
mod copies;
mod edit_calls;
mod edits;
mod handle;
mod kept;
mod layers;
mod lines;
mod list_edits;
mod lists;
mod loose;
mod queries;
mod query;
mod raw;
mod reach;
mod shapes;
mod sight;
pub mod statuses;
mod told;
mod ways;
mod wide;
mod words;

pub use beyond::ListBeyond;
pub use conflicts::ListConflicts;
pub use handle::Handle;
pub use layers::ListLayers;
pub use lines::WalkLine;
pub use lists::{ListEdges, ListFaces, ListNumbers, ListPositions, write_faces};
pub use queries::{Locate, is_in_range};
pub use query::Query;
pub use raw::{
    RawBox, RawCounts, RawEdge, RawFace, RawLocation, RawMeeting, RawPoint, RawSegment, RawShape,
};
pub use reach::ListLabels;
pub use shapes::{Edges, InShape, Part, Vertices};
pub use sight::LookAlong;
pub use ways::FindWay;
pub use wide::ListWide;
pub use words::{ended_words_of, write_words};
