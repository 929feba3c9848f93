//! The words of the command line.
use clap::builder::ValueParser;
use clap::{Arg, ArgAction, ArgMatches, Command};
use mesh_files::{ColumnNames, Form, Rounding};
use std::alloc::{AllocError, Global};

/// The form of a file that is read.
#[derive(Clone, Copy, PartialEq, Eq)]
pub enum Source {
    Csv,
    Node,
    Poly,
    GeoJson,
}

/// What becomes of segments that cross: both are split, the file is refused, or the later one is
/// left out.
#[derive(Clone, Copy, PartialEq, Eq)]
pub enum CrossingRule {
    Split,
    Refuse,
    Skip,
}

/// Which faces are kept: all; those in a polygon, where the drawing has polygons; or those that
/// segments close off.
#[derive(Clone, Copy, PartialEq, Eq)]
pub enum KeepRule {
    All,
    Inside,
    Layers,
}

/// The coordinates of two ends, as they are typed.
#[derive(Clone, Copy)]
pub struct TypedEnds<'a> {
    pub x1: &'a str,
    pub y1: &'a str,
    pub x2: &'a str,
    pub y2: &'a str,
}

/// What is asked of a triangulation, by the file of the points that are asked about, or by the ends
/// of a way.
#[derive(Clone, Copy)]
pub enum Question<'a> {
    Nearest(&'a str),
    Locate(&'a str),
    Line(TypedEnds<'a>),
    Overlaps,
    Way(TypedEnds<'a>),
}

/// What is asked for.
#[derive(Drop)]
pub struct Task<'a> {
    pub file: Option<&'a str>,
    /// What is read, if it is given or what the file's name ends in.
    pub source: Option<Source>,
    pub names: ColumnNames<'a>,
    /// What is written, if the output ends in a form.
    pub form: Option<Form>,
    pub output: Option<&'a str>,
    pub lines: Option<&'a str>,
    pub question: Option<Question<'a>>,
    /// The height that stands for none.
    pub nodata: Option<&'a str>,
    /// Whether bad rows and features are left out.
    pub skips_bad: bool,
    pub rounding: Rounding,
    pub crossing: CrossingRule,
    pub keep: KeepRule,
    pub is_quiet: bool,
    /// Whether points that repeat others are left out of what is written.
    pub is_compact: bool,
    pub width: u32,
}

/// An option of the command line.
#[derive(Clone, Copy)]
struct Choice {
    name: &'static str,
    letter: Option<char>,
    action: ArgAction,
    /// What each value has to be.
    operand: ValueParser<'static>,
    /// What help calls the values, and how many there are.
    values: &'static [&'static str],
    may_be_negative: bool,
    /// Options that are not given beside it.
    rivals: &'static [&'static str],
    help: &'static str,
}

static CHOICES: [Choice; 21] = [
    Choice {
        name: "from",
        letter: None,
        action: ArgAction::Set,
        operand: ValueParser::Names(&["csv", "node", "poly", "geojson"]),
        values: &["FORM"],
        may_be_negative: false,
        rivals: &[],
        help: "Reads this form; without it, the ending or the first bytes of FILE decide",
    },
    Choice {
        name: "to",
        letter: None,
        action: ArgAction::Set,
        operand: ValueParser::Names(&[
            "obj", "ply", "stl", "geojson", "svg", "ele", "node", "neigh", "poly", "csv",
        ]),
        values: &["FORM"],
        may_be_negative: false,
        rivals: &[],
        help: "Writes this form; without it, the ending of the output file decides, or it is obj",
    },
    Choice {
        name: "output",
        letter: Some('o'),
        action: ArgAction::Set,
        operand: ValueParser::String,
        values: &["FILE"],
        may_be_negative: false,
        rivals: &[],
        help: "Writes to this file instead of standard output",
    },
    Choice {
        name: "lines",
        letter: None,
        action: ArgAction::Set,
        operand: ValueParser::String,
        values: &["FILE"],
        may_be_negative: false,
        rivals: &[],
        help: "Reads segments from a table of their own, with the columns from and to",
    },
    Choice {
        name: "x",
        letter: None,
        action: ArgAction::Set,
        operand: ValueParser::String,
        values: &["NAME"],
        may_be_negative: false,
        rivals: &[],
        help: "Names the column of x; else x, lon, long, longitude or easting",
    },
    Choice {
        name: "y",
        letter: None,
        action: ArgAction::Set,
        operand: ValueParser::String,
        values: &["NAME"],
        may_be_negative: false,
        rivals: &[],
        help: "Names the column of y; else y, lat, latitude or northing",
    },
    Choice {
        name: "z",
        letter: None,
        action: ArgAction::Set,
        operand: ValueParser::String,
        values: &["NAME"],
        may_be_negative: false,
        rivals: &[],
        help: "Names the column of heights; else z",
    },
    Choice {
        name: "nodata",
        letter: None,
        action: ArgAction::Set,
        operand: ValueParser::String,
        values: &["VALUE"],
        may_be_negative: true,
        rivals: &["lines"],
        help: "Leaves out the rows of a table with this height",
    },
    Choice {
        name: "skip-bad",
        letter: None,
        action: ArgAction::SetTrue,
        operand: ValueParser::Bool,
        values: &[],
        may_be_negative: false,
        rivals: &["lines"],
        help: "Leaves out bad rows of tables and bad features of GeoJSON, and says which",
    },
    Choice {
        name: "nearest",
        letter: None,
        action: ArgAction::Set,
        operand: ValueParser::String,
        values: &["FILE"],
        may_be_negative: false,
        rivals: &["locate", "line", "way"],
        help: "Says which point is nearest to each point of a table, and how far away it is",
    },
    Choice {
        name: "locate",
        letter: None,
        action: ArgAction::Set,
        operand: ValueParser::String,
        values: &["FILE"],
        may_be_negative: false,
        rivals: &["line", "way"],
        help: "Says which face, edge or point each point of a table is on, and its height",
    },
    Choice {
        name: "line",
        letter: None,
        action: ArgAction::Set,
        operand: ValueParser::String,
        values: &["X1", "Y1", "X2", "Y2"],
        may_be_negative: true,
        rivals: &["way"],
        help: "Lists the edges and points that the segment between two points meets",
    },
    Choice {
        name: "overlaps",
        letter: None,
        action: ArgAction::SetTrue,
        operand: ValueParser::Bool,
        values: &[],
        may_be_negative: false,
        rivals: &["nearest", "locate", "line", "way", "keep"],
        help: "Lists where polygons overlap and which gaps they leave, with areas",
    },
    Choice {
        name: "way",
        letter: None,
        action: ArgAction::Set,
        operand: ValueParser::String,
        values: &["X1", "Y1", "X2", "Y2"],
        may_be_negative: true,
        rivals: &[],
        help: "Lists the points of a short way between two points through the faces that are kept",
    },
    Choice {
        name: "round",
        letter: None,
        action: ArgAction::Set,
        operand: ValueParser::Signed(0, 30),
        values: &["DIGITS"],
        may_be_negative: false,
        rivals: &[],
        help: "Rounds to so many digits behind the point; else, if not all fit, to as many as do",
    },
    Choice {
        name: "exact",
        letter: None,
        action: ArgAction::SetTrue,
        operand: ValueParser::Bool,
        values: &[],
        may_be_negative: false,
        rivals: &["round"],
        help: "Refuses numbers that would have to be rounded",
    },
    Choice {
        name: "crossing",
        letter: None,
        action: ArgAction::Set,
        operand: ValueParser::Names(&["split", "refuse", "skip"]),
        values: &["RULE"],
        may_be_negative: false,
        rivals: &[],
        help: "Splits segments that cross, refuses the file, or skips the later one; else split",
    },
    Choice {
        name: "keep",
        letter: None,
        action: ArgAction::Set,
        operand: ValueParser::Names(&["inside", "layers"]),
        values: &["PART"],
        may_be_negative: false,
        rivals: &[],
        help: "Keeps faces: inside polygons if there are any, or in layers that segments close off",
    },
    Choice {
        name: "compact",
        letter: None,
        action: ArgAction::SetTrue,
        operand: ValueParser::Bool,
        values: &[],
        may_be_negative: false,
        rivals: &[],
        help: "Leaves out points that repeat others, and numbers those that are left",
    },
    Choice {
        name: "size",
        letter: None,
        action: ArgAction::Set,
        operand: ValueParser::Signed(1, 100_000),
        values: &["PIXELS"],
        may_be_negative: false,
        rivals: &[],
        help: "Makes a picture so wide; else 800",
    },
    Choice {
        name: "quiet",
        letter: Some('q'),
        action: ArgAction::SetTrue,
        operand: ValueParser::Bool,
        values: &[],
        may_be_negative: false,
        rivals: &[],
        help: "Writes nothing but errors to standard error",
    },
];

/// An option with its letter.
fn with_letter(arg: Arg<'_>, letter: Option<char>) -> Arg<'_> {
    match letter {
        Some(letter) => arg.short(letter),
        None => arg,
    }
}

/// An option of the command line.
fn option_of<'a>(choice: &Choice, alloc: Global) -> Result<Arg<'a>, AllocError> {
    let arg = Arg::new(alloc, choice.name)
        .long(choice.name)
        .action(choice.action)
        .value_parser(choice.operand)
        .value_names(choice.values)
        .allow_negative_numbers(choice.may_be_negative)
        .help(choice.help);
    with_letter(arg, choice.letter).conflicts_with_all(choice.rivals)
}

/// The words that there are.
pub fn command<'a>(alloc: Global) -> Result<Command<'a>, AllocError> {
    let about = "Reads points and segments, and writes their constrained Delaunay triangulation.";
    let file = Arg::new(alloc, "FILE").help(
        "The file to read; without it, or for -, standard input",
    );
    let mut command = Command::new(alloc, "mesh")
        .version("0.1.0")
        .about(about)
        .arg(file)?;
    for choice in &CHOICES {
        command = command.arg(option_of(choice, alloc)?)?;
    }
    Ok(command)
}

/// What a file's name ends in, behind its last point. Its folders do not count.
pub fn suffix(path: Option<&str>) -> &str {
    let Some(path) = path else {
        return "";
    };
    let name = match path.rsplit_once('/') {
        Some((_, name)) => name,
        None => path,
    };
    match name.rsplit_once('.') {
        Some((_, suffix)) => suffix,
        None => "",
    }
}

/// What a form of this name, or a file that ends in it, is.
fn source_named(name: &str) -> Option<Source> {
    match name {
        "csv" => Some(Source::Csv),
        "node" => Some(Source::Node),
        "poly" => Some(Source::Poly),
        "geojson" | "json" | "geojsonl" | "geojsons" | "geojsonseq" => Some(Source::GeoJson),
        _ => None,
    }
}

/// The form that an output has: of a file what it ends in, else `obj`. It gives none where a file
/// ends in no form.
fn form_of(matches: &ArgMatches<'_>, output: Option<&str>) -> Option<Form> {
    match matches.get_str("to") {
        Some(name) => Form::named(name),
        None => match suffix(output) {
            "" => Some(Form::Obj),
            name => Form::named(name),
        },
    }
}

/// The ends that an option has, if it is given.
fn typed_ends<'a>(matches: &ArgMatches<'a>, option: &str) -> Option<TypedEnds<'a>> {
    match matches.get_strs(option) {
        Some([x1, y1, x2, y2]) => Some(TypedEnds {
            x1: *x1,
            y1: *y1,
            x2: *x2,
            y2: *y2,
        }),
        _ => None,
    }
}

/// The question that is asked, if one is.
fn question_of<'a>(matches: &ArgMatches<'a>) -> Option<Question<'a>> {
    if let Some(file) = matches.get_str("nearest") {
        return Some(Question::Nearest(file));
    }
    if let Some(file) = matches.get_str("locate") {
        return Some(Question::Locate(file));
    }
    if matches.get_flag("overlaps") {
        return Some(Question::Overlaps);
    }
    if let Some(ends) = typed_ends(matches, "line") {
        return Some(Question::Line(ends));
    }
    Some(Question::Way(typed_ends(matches, "way")?))
}

/// How numbers are rounded.
fn rounding_of(matches: &ArgMatches<'_>) -> Rounding {
    match matches.get_one::<u32>("round") {
        Some(digits) => Rounding::To(digits),
        None if matches.get_flag("exact") => Rounding::Exact,
        None => Rounding::Fit,
    }
}

/// What becomes of segments that cross.
fn crossing_rule(matches: &ArgMatches<'_>) -> CrossingRule {
    match matches.get_str("crossing") {
        Some("refuse") => CrossingRule::Refuse,
        Some("skip") => CrossingRule::Skip,
        _ => CrossingRule::Split,
    }
}

/// Which faces are kept.
fn keep_of(matches: &ArgMatches<'_>) -> KeepRule {
    match matches.get_str("keep") {
        Some("inside") => KeepRule::Inside,
        Some("layers") => KeepRule::Layers,
        _ => KeepRule::All,
    }
}

/// What the words ask for.
pub fn task_of<'a>(matches: &ArgMatches<'a>) -> Task<'a> {
    let file = matches.get_str("FILE").filter(|name| *name != "-");
    let output = matches.get_str("output");
    Task {
        file,
        source: source_named(matches.get_str("from").unwrap_or(suffix(file))),
        names: ColumnNames {
            x: matches.get_str("x"),
            y: matches.get_str("y"),
            z: matches.get_str("z"),
        },
        form: form_of(matches, output),
        output,
        lines: matches.get_str("lines"),
        question: question_of(matches),
        nodata: matches.get_str("nodata"),
        skips_bad: matches.get_flag("skip-bad"),
        rounding: rounding_of(matches),
        crossing: crossing_rule(matches),
        keep: keep_of(matches),
        is_quiet: matches.get_flag("quiet"),
        is_compact: matches.get_flag("compact"),
        width: matches.get_one::<u32>("size").unwrap_or(800),
    }
}
