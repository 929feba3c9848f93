//! What is wrong with a file, and where.
use std::alloc::{AllocError, AllocFailed};
use std::fmt;

/// What is wrong. Words are what is wrong itself: a column's name, or what should stand there.
#[derive(Clone, Copy, Drop)]
pub enum Reason {
    NoColumn(&'static str),
    /// No column has the name that is given for this.
    NoGivenColumn(&'static str),
    NotNumber(&'static str),
    TooLong(&'static str),
    /// What has more digits behind the point than these, which fit.
    TooFine(&'static str, u32),
    /// What is too far from the others, which have so many digits behind the point, and how many
    /// would fit.
    TooFar(&'static str, u32, Option<u32>),
    OtherFields,
    Ends(&'static str),
    Missing(&'static str),
    NotCount(&'static str),
    NotPlane,
    NoPoint(u64),
    NotNext,
    PointsElsewhere,
    TooMany,
    LongLine(u32),
    LongText(u32),
    NulByte,
    NotUtf8,
    OpenQuote,
    NotJson(usize),
    Expected(&'static str),
    NoMember(&'static str),
    NotOfType(&'static str),
    Both(&'static str, &'static str),
    OtherNesting,
    OpenRing,
    SmallRing,
    NoHeight,
    Unreadable,
    NoMemory,
}

const TOO_LONG: &str =
    " has more than 17 digits before the point, or a power of ten past 400: use larger units";

const OTHER_FIELDS: &str =
    "the row has more or fewer fields than the first: quote those with separators in them";

/// What the text of a reason names.
#[derive(Clone, Copy)]
enum Named {
    Nothing,
    Word(&'static str),
    Number(u64),
}

impl fmt::Display for Named {
    fn fmt<W: fmt::Write>(&self, f: &mut fmt::Formatter<W>) -> fmt::Result {
        match *self {
            Named::Nothing => Ok(()),
            Named::Word(word) => f.write_str(word),
            Named::Number(number) => write!(f, "{number}"),
        }
    }
}

/// Which option names the column that a table lacks, if one does.
fn column_hint(name: &str) -> &'static str {
    match name {
        "x" => ": --x gives its name",
        "y" => ": --y gives its name",
        _ => "",
    }
}

impl Reason {
    /// The text of a reason that names nothing.
    fn text(self) -> &'static str {
        match self {
            Reason::OtherFields => OTHER_FIELDS,
            Reason::NotPlane => {
                "only points of the plane are read, with two coordinates: these have another number"
            }
            Reason::NotNext => {
                "this is not the next point: number the points one after the other, from 0 or 1"
            }
            Reason::PointsElsewhere => {
                "its points are in a .node file: put them into this file, or read that one"
            }
            Reason::TooMany => {
                "there are too many points, or their numbers take more than 4 GiB: split the file"
            }
            Reason::NulByte => "there is a NUL byte: this is not a text file",
            Reason::NotUtf8 => "the file is not UTF-8: iconv can convert it",
            Reason::OpenQuote => "the quoted field that begins here does not end: close its quote",
            Reason::OtherNesting =>
                "the coordinates are not nested as the type of the geometry asks",
            Reason::OpenRing => "a ring does not end where it began",
            Reason::SmallRing =>
                "this ring has fewer than three corners: add corners, or leave it out",
            Reason::NoHeight => "this point has no height, though others have one",
            Reason::Unreadable => "reading failed",
            Reason::NoMemory => "there is not enough memory",
            _ => "",
        }
    }

    /// The word that a reason names, with the text before and behind it, if it names one.
    fn word_parts(self) -> Option<(&'static str, &'static str, &'static str)> {
        Some(match self {
            Reason::NoColumn(name) => ("there is no column named ", name, column_hint(name)),
            Reason::NoGivenColumn(name) => ("no column has the name that --", name, " gives"),
            Reason::NotNumber(name) => ("", name, " is not a decimal number"),
            Reason::TooLong(name) => ("", name, TOO_LONG),
            Reason::Ends(what) => ("the file ends where ", what, " is expected"),
            Reason::Missing(what) => ("", what, " is missing"),
            Reason::NotCount(what) => ("", what, " is not a whole number from 0 on"),
            Reason::Expected(what) => ("", what, " is expected here"),
            Reason::NoMember(name) => ("the object has no member named ", name, ""),
            Reason::NotOfType(name) => ("the object has ", name, ", which is not for its type"),
            _ => return None,
        })
    }

    /// The number that a reason names, with the text before and behind it, if it names one.
    fn number_parts(self) -> Option<(&'static str, u64, &'static str)> {
        Some(match self {
            Reason::NoPoint(number) => {
                (
                    "point ",
                    number,
                    " is used here, but there is no such point",
                )
            }
            Reason::LongLine(most) => (
                "this line or row is too long: at most ",
                u64::from(most),
                " bytes are read",
            ),
            Reason::LongText(most) => (
                "the file is too long, split it: at most ",
                u64::from(most),
                " bytes are read",
            ),
            Reason::NotJson(most) => {
                (
                    "this is not JSON, or it nests more than ",
                    most as u64,
                    " deep",
                )
            }
            _ => return None,
        })
    }

    /// What a reason names, with the text before and behind it.
    fn parts(self) -> (&'static str, Named, &'static str) {
        if let Some((before, word, behind)) = self.word_parts() {
            return (before, Named::Word(word), behind);
        }
        match self.number_parts() {
            Some((before, number, behind)) => (before, Named::Number(number), behind),
            None => (self.text(), Named::Nothing, ""),
        }
    }
}

/// Tells that a number is too far from the others, and how many digits behind the point would fit.
fn write_far<W: fmt::Write>(
    f: &mut fmt::Formatter<W>,
    name: &str,
    digits: u32,
    fitting: Option<u32>,
) -> fmt::Result {
    write!(
        f,
        "{name} is too far from the others: with {digits} decimals they may span 2^30 units"
    )?;
    match fitting {
        Some(fitting) if fitting < digits => write!(f, "; --round {fitting} fits"),
        _ => Ok(()),
    }
}

impl fmt::Display for Reason {
    fn fmt<W: fmt::Write>(&self, f: &mut fmt::Formatter<W>) -> fmt::Result {
        match *self {
            Reason::TooFine(name, fitting) => {
                write!(f, "{name} has more digits behind the point than fit: ")?;
                write!(f, "--round {fitting} keeps as many as do")
            }
            Reason::TooFar(name, digits, fitting) => write_far(f, name, digits, fitting),
            Reason::Both(one, other) => {
                write!(f, "the object has {one} and {other}: leave one out")
            }
            reason => {
                let (before, named, behind) = reason.parts();
                write!(f, "{before}{named}{behind}")
            }
        }
    }
}

impl fmt::Debug for Reason {
    fn fmt<W: fmt::Write>(&self, f: &mut fmt::Formatter<W>) -> fmt::Result {
        write!(f, "{self}")
    }
}

impl std::error::Error for Reason {}

/// Where something stands in a file: its line, from 1, and where it is in a feature of GeoJSON the
/// number of that, from 1, else 0.
#[derive(Clone, Copy, Debug, PartialEq, Eq)]
pub struct FileLine {
    pub line: u32,
    pub feature: u32,
}

impl FileLine {
    /// A line with no feature.
    pub fn of_line(line: u32) -> Self {
        FileLine { line, feature: 0 }
    }
}

impl fmt::Display for FileLine {
    fn fmt<W: fmt::Write>(&self, f: &mut fmt::Formatter<W>) -> fmt::Result {
        let FileLine { line, feature } = *self;
        if feature == 0 {
            write!(f, "line {line}")
        } else {
            write!(f, "line {line}, feature {feature}")
        }
    }
}

/// What is wrong with a file, and where: line 0 stands for all of the file.
#[derive(Clone, Copy, Debug, Drop)]
pub struct FileFault {
    pub file_line: FileLine,
    pub reason: Reason,
}

impl fmt::Display for FileFault {
    fn fmt<W: fmt::Write>(&self, f: &mut fmt::Formatter<W>) -> fmt::Result {
        let FileFault { file_line, reason } = *self;
        if file_line.line > 0 {
            write!(f, "{file_line}: ")?;
        }
        write!(f, "{reason}")
    }
}

impl std::error::Error for FileFault {}

impl FileFault {
    /// A fault of a line.
    pub fn at(line: u32, reason: Reason) -> Self {
        FileFault::at_line(FileLine::of_line(line), reason)
    }

    pub(crate) fn at_line(file_line: FileLine, reason: Reason) -> Self {
        FileFault { file_line, reason }
    }
}

impl From<AllocError> for FileFault {
    fn from(_error: AllocError) -> Self {
        FileFault::at(0, Reason::NoMemory)
    }
}

impl<T: Drop> From<AllocFailed<T>> for FileFault {
    fn from(_error: AllocFailed<T>) -> Self {
        FileFault::at(0, Reason::NoMemory)
    }
}
