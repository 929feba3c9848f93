//! Points and segments in text files, and faces between points as text of several forms.
#![tactic(auto)]

mod asked;
mod columns;
mod csv_tables;
mod drawing;
mod faces;
mod fault;
mod fields;
mod geojson;
mod json_text;
mod moves;
mod neighbours;
mod picture;
mod record_texts;
mod records;
mod regions;
mod rings;
mod scaled;
mod shapes;
mod text;
mod triangle_files;
mod words;
mod writing;

pub use asked::{Asked, asked_points};
pub use columns::ColumnNames;
pub use csv_tables::{read_csv, read_segments};
pub use drawing::{Drawing, Number, Ring, Segment, Spot};
pub use fault::{FileFault, FileLine, Reason};
pub use geojson::read_geojson;
pub use moves::Moves;
pub use record_texts::{feature_records, table_records};
pub use records::{Named, Records, RecordsOf, push_field, push_json_text};
pub use regions::{Regions, poly_regions};
pub use rings::hole_sides;
pub use scaled::{Rounding, Scaled, most_digits, scale};
pub use text::CheckedText;
pub use triangle_files::{read_node, read_poly};
pub use writing::{FacePolygons, Form, MeshText, WrittenPoints};
