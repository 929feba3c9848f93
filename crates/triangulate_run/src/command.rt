//! What a line may ask for.

/// The two coordinates of a point, as a line spells them.
#[derive(Clone, Copy, Debug, PartialEq, Eq)]
pub struct Coordinates {
    pub x: i64,
    pub y: i64,
}

/// What a line asks for. Numbers without a sign are indexes of vertices.
#[derive(Clone, Copy, Debug, PartialEq, Eq)]
pub enum Command {
    /// To insert a vertex here.
    Insert(Coordinates),
    /// To remove this vertex.
    Remove(u64),
    /// To join two vertices by constraints.
    Constrain(u64, u64),
    /// To make the constraint of two vertices an edge like any other.
    Release(u64, u64),
    /// To tell what is here.
    Locate(Coordinates),
    /// To tell how far the nearest vertex is.
    Nearest(Coordinates),
    /// To tell what the way from one point to another meets.
    Line(Coordinates, Coordinates),
    /// To tell how many vertices, edges, faces and constraints there are.
    Counts,
    /// To list all faces.
    Faces,
}
