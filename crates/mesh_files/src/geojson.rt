//! GeoJSON: geometries, features that have one, and collections of both. Positions are points, with
//! their third number as height; line strings and the rings of polygons are segments between them.
//! Where a line ends in the position that it began with, that is one point. Properties and further
//! numbers of a position are left out, which the drawing notes.
ghost use Rattle.std.specs.Prelude.{◌≡◌, ◌++◌, List, IfOk, IfSome, OnOk};
ghost use Rattle.json.specs.Lex.{tokens};
ghost use Rattle.json.specs.Reads.{token_of};
ghost use Rattle.json.specs.Token.{Token as SpecToken, number, end_array};
ghost use Rattle.mesh_files.specs.{Drawn.HasNoNumbers, Drawn.SameNumbers, Runs.numbers_first};
ghost use Rattle.mesh_files.specs.Runs.{DrawsRuns, HasPositions, IsFirstNumber, IsRun};
ghost use Rattle.mesh_files.specs.States.{DrawsOn, GoesOn, HasReadRuns, HasReadTokens, IsBetween};
ghost use Rattle.mesh_files.specs.States.{IsGeoJson, IsStepBetween, IsWithoutMark, ReadsToken};
ghost use Rattle.mesh_files.specs.declared.drawing.Drawing.{Drawing};

use crate::json_text::JsonText;
use crate::shapes::{GeoPosition, LineKind, Shape};
use crate::{CheckedText, Drawing, FileFault, FileLine, Number, Reason, Spot};
use json::{MAX_DEPTH, Reader, Scratch, Token};
use std::alloc::Global;
use std::io::Read;

/// How deep arrays nest round the numbers of a position, at most.
const MAX_NESTING: u32 = 4;

/// What should stand where coordinates are read.
const COORDINATES: &str = "an array of coordinates";

/// What should stand in an object that has not ended.
const INNER: &str = "a member or an object of GeoJSON";

/// The types of objects.
#[derive(Clone, Copy)]
enum GeoType {
    /// A geometry with coordinates: what their lines are, and how deep they nest.
    Shape(LineKind, u32),
    GeometryCollection,
    Feature,
    FeatureCollection,
}

/// The members that say what an object is of.
#[derive(Clone, Copy)]
enum Member {
    Coordinates,
    Geometry,
    Geometries,
    Features,
}

impl GeoType {
    fn named(name: &str) -> Option<Self> {
        match name {
            "Point" => Some(GeoType::Shape(LineKind::Points, 1)),
            "MultiPoint" => Some(GeoType::Shape(LineKind::Points, 2)),
            "LineString" => Some(GeoType::Shape(LineKind::Path, 2)),
            "MultiLineString" => Some(GeoType::Shape(LineKind::Path, 3)),
            "Polygon" => Some(GeoType::Shape(LineKind::Ring, 3)),
            "MultiPolygon" => Some(GeoType::Shape(LineKind::Ring, 4)),
            "GeometryCollection" => Some(GeoType::GeometryCollection),
            "Feature" => Some(GeoType::Feature),
            "FeatureCollection" => Some(GeoType::FeatureCollection),
            _ => None,
        }
    }

    /// The name of the member that objects of this type have.
    fn member(self) -> &'static str {
        match self {
            GeoType::Shape(_, _) => "coordinates",
            GeoType::GeometryCollection => "geometries",
            GeoType::Feature => "geometry",
            GeoType::FeatureCollection => "features",
        }
    }
}

impl Member {
    fn named(name: &str) -> Option<Self> {
        match name {
            "coordinates" => Some(Member::Coordinates),
            "geometry" => Some(Member::Geometry),
            "geometries" => Some(Member::Geometries),
            "features" => Some(Member::Features),
            _ => None,
        }
    }

    fn name(self) -> &'static str {
        match self {
            Member::Coordinates => "coordinates",
            Member::Geometry => "geometry",
            Member::Geometries => "geometries",
            Member::Features => "features",
        }
    }

    /// Whether objects of this type have this member.
    fn is_of(self, kind: GeoType) -> bool {
        matches!(
            (self, kind),
            (Member::Coordinates, GeoType::Shape(_, _))
                | (Member::Geometry, GeoType::Feature)
                | (Member::Geometries, GeoType::GeometryCollection)
                | (Member::Features, GeoType::FeatureCollection)
        )
    }

    /// What is told where an object of this type does not stand in this member.
    fn refuses(self, inner: GeoType) -> Option<&'static str> {
        match (self, inner) {
            (Member::Features, GeoType::Feature) => None,
            (Member::Features, _) => Some("a feature"),
            (_, GeoType::Shape(_, _) | GeoType::GeometryCollection) => None,
            _ => Some("a geometry"),
        }
    }
}

/// How deep arrays of coordinates are nested where a token stands, and round numbers, or 0 before
/// the first number.
#[derive(Clone, Copy)]
struct Nesting {
    depth: u32,
    most: u32,
}

impl Nesting {
    /// Within another array, if there may be one.
    fn opened(self) -> Option<Self> {
        if self.depth < MAX_NESTING {
            Some(Nesting {
                depth: self.depth + 1,
                most: self.most,
            })
        } else {
            None
        }
    }

    /// Behind the array, if it ends in no number.
    fn closed(self) -> Option<Self> {
        if self.depth == self.most {
            return None;
        }
        Some(Nesting {
            depth: self.depth.checked_sub(1)?,
            most: self.most,
        })
    }

    /// Behind an array of numbers, if it may be one.
    fn passed(self) -> Option<Self> {
        if self.most != 0 && self.most != self.depth {
            return None;
        }
        Some(Nesting {
            depth: self.depth.checked_sub(1)?,
            most: self.depth,
        })
    }
}

/// What comes next in a text.
#[derive(Clone, Copy)]
enum Wanted {
    /// The object that the text is.
    Whole,
    /// What stands in an object or its list, or the end of that.
    Inner,
    /// The name of a type.
    Type,
    /// The properties of a feature.
    Properties,
    /// One of them, or their end.
    Property,
    /// The geometry of a feature.
    Geometry,
    /// A list of objects.
    List,
    Coordinates,
    /// The second number of a position, whose first stands there.
    SecondNumber(Number, FileLine),
    /// Further numbers of a position, or its end.
    MoreNumbers(GeoPosition),
    /// The value of a property, whatever it is.
    PropertyValue,
    /// The value of a member that is left out.
    MemberValue,
}

/// What a token says that is part of no position.
#[derive(Clone, Copy)]
enum Step {
    Next(Wanted),
    Kind(GeoType),
    Property,
    List,
    Object,
}

impl Wanted {
    /// What comes behind a value that is passed over, if one is.
    fn behind_value(self) -> Option<Self>
        ensures { IfSome result IsBetween }
    {
        match self {
            Wanted::PropertyValue => Some(Wanted::Property),
            Wanted::MemberValue => Some(Wanted::Inner),
            _ => None,
        }
    }

    /// What a token says where this is wanted, or what should stand there.
    fn step(self, token: Token<'_>) -> Result<Step, &'static str>
        ensures { IfOk result IsStepBetween }
    {
        match (self, token) {
            (Wanted::Whole, Token::BeginObject) => Ok(Step::Next(Wanted::Inner)),
            (Wanted::Whole, _) => Err("an object of GeoJSON"),
            (Wanted::Type, Token::String(name)) => match GeoType::named(name) {
                Some(kind) => Ok(Step::Kind(kind)),
                None => Err("a type of GeoJSON"),
            },
            (Wanted::Type, _) => Err("a type of GeoJSON"),
            (Wanted::Properties | Wanted::Geometry, Token::Null)
            | (Wanted::Property, Token::EndObject) => Ok(Step::Next(Wanted::Inner)),
            (Wanted::Properties, Token::BeginObject) => Ok(Step::Next(Wanted::Property)),
            (Wanted::Properties, _) => Err("an object of properties"),
            (Wanted::Property, Token::Key(_)) => Ok(Step::Property),
            (Wanted::Property, _) => Err("a name of a property"),
            (Wanted::Geometry, Token::BeginObject) => Ok(Step::Object),
            (Wanted::Geometry, _) => Err("a geometry"),
            (_, Token::BeginArray) => Ok(Step::List),
            _ => Err("a list"),
        }
    }
}

/// An object as far as it was read: its type, the member that says what it is of, how deep that
/// nests if it is coordinates with a number, and whether it is a list that is being read.
#[derive(Clone, Copy)]
struct GeoObject {
    kind: Option<GeoType>,
    member: Option<Member>,
    nesting: u32,
    is_in_list: bool,
}

impl GeoObject {
    /// As it begins.
    fn new() -> Self {
        GeoObject {
            kind: None,
            member: None,
            nesting: 0,
            is_in_list: false,
        }
    }

    /// The type of an object that ends: it has one and what goes with that, and may stand in this
    /// member.
    fn whole_type(&self, outer: Option<Member>) -> Result<GeoType, Reason> {
        let Some(kind) = self.kind else {
            return Err(Reason::NoMember("type"));
        };
        let Some(member) = self.member else {
            return Err(Reason::NoMember(kind.member()));
        };
        if !member.is_of(kind) {
            return Err(Reason::NotOfType(member.name()));
        }
        let Some(outer) = outer else {
            return Ok(kind);
        };
        match outer.refuses(kind) {
            Some(wanted) => Err(Reason::Expected(wanted)),
            None => Ok(kind),
        }
    }
}

/// What was read of a text: the innermost object that has not ended, and those round it.
#[derive(Drop)]
struct GeoState {
    wanted: Wanted,
    object: GeoObject,
    outer: Vec<GeoObject>,
    nesting: Nesting,
    shape: Shape,
    feature: u32,
    has_properties: bool,
    has_more_numbers: bool,
    has_ended: bool,
}

impl GeoState {
    fn new(alloc: Global) -> Self
        ensures wanted { IsBetween result.wanted }
        ensures shape { (tokens : List SpecToken) → HasPositions tokens result.shape }
    {
        GeoState {
            wanted: Wanted::Whole,
            object: GeoObject::new(),
            outer: Vec::new(alloc),
            nesting: Nesting { depth: 0, most: 0 },
            shape: Shape::new(alloc),
            feature: 0,
            has_properties: false,
            has_more_numbers: false,
            has_ended: false,
        }
    }

    /// Begins an object in the innermost.
    fn open_object(&mut self, at: FileLine) -> Result<(), FileFault>
        ensures { OnOk result (GoesOn self.old self.new) }
    {
        self.outer.push(self.object)?;
        if self.outer.len() >= MAX_DEPTH {
            return Err(FileFault::at_line(at, Reason::NotJson(MAX_DEPTH)));
        }
        self.object = GeoObject::new();
        self.wanted = Wanted::Inner;
        Ok(())
    }

    /// Takes a token in that is part of no position.
    fn take_step(&mut self, step: Step, at: FileLine) -> Result<(), FileFault>
        requires { IsStepBetween step }
        ensures { OnOk result (GoesOn self.old self.new) }
    {
        match step {
            Step::Next(wanted) => self.wanted = wanted,
            Step::Kind(kind) => {
                self.object.kind = Some(kind);
                self.wanted = Wanted::Inner;
            }
            Step::Property => {
                self.has_properties = true;
                self.wanted = Wanted::PropertyValue;
            }
            Step::List => {
                self.object.is_in_list = true;
                self.wanted = Wanted::Inner;
            }
            Step::Object => return self.open_object(at),
        }
        Ok(())
    }

    /// Begins what an object is of.
    fn begin_content(&mut self, member: Member, at: FileLine) -> Result<(), FileFault>
        ensures { OnOk result (GoesOn self.old self.new) }
    {
        if let Some(other) = self.object.member {
            let reason = Reason::Both(other.name(), member.name());
            return Err(FileFault::at_line(at, reason));
        }
        self.object.member = Some(member);
        self.wanted = match member {
            Member::Coordinates => Wanted::Coordinates,
            Member::Geometry => Wanted::Geometry,
            Member::Geometries | Member::Features => Wanted::List,
        };
        self.nesting = Nesting { depth: 0, most: 0 };
        self.shape.clear();
        Ok(())
    }

    /// Begins a member of an object.
    fn begin_member(&mut self, name: &str, at: FileLine) -> Result<(), FileFault>
        ensures { OnOk result (GoesOn self.old self.new) }
    {
        if let Some(member) = Member::named(name) {
            return self.begin_content(member, at);
        }
        match name {
            "type" => self.wanted = Wanted::Type,
            "properties" => self.wanted = Wanted::Properties,
            _ => self.wanted = Wanted::MemberValue,
        }
        Ok(())
    }

    /// Draws the coordinates of an object.
    fn draw(&self, kind: GeoType, at: FileLine, drawing: &mut Drawing) -> Result<(), FileFault>
        ensures { OnOk result ((tokens : List SpecToken) → HasPositions tokens self.now.shape
            → DrawsRuns tokens drawing.old → DrawsRuns tokens drawing.new) }
    {
        let GeoType::Shape(kind, nesting) = kind else {
            return Ok(());
        };
        if self.object.nesting != 0 && self.object.nesting != nesting {
            return Err(FileFault::at_line(at, Reason::OtherNesting));
        }
        self.shape.draw(kind, drawing)
    }

    /// Ends an object, and goes on with that round it.
    fn close(&mut self, at: FileLine, drawing: &mut Drawing) -> Result<(), FileFault>
        requires { IsBetween self.old.wanted }
        ensures { OnOk result (DrawsOn self.old self.new drawing.old drawing.new) }
    {
        let outer = self.outer.pop();
        let member = match outer {
            Some(outer) => outer.member,
            None => None,
        };
        match self.object.whole_type(member) {
            Ok(kind) => self.draw(kind, at, drawing)?,
            Err(reason) => return Err(FileFault::at_line(at, reason)),
        }
        match outer {
            Some(outer) => self.object = outer,
            None => self.has_ended = true,
        }
        Ok(())
    }

    /// Takes a token of a list of objects in.
    fn take_in_list(&mut self, token: Token<'_>, at: FileLine) -> Result<(), FileFault>
        requires { IsBetween self.old.wanted }
        ensures { OnOk result (GoesOn self.old self.new) }
    {
        match token {
            Token::BeginObject => {
                if matches!(self.object.member, Some(Member::Features)) {
                    self.feature = self.feature.saturating_add(1);
                }
                let FileLine { line, .. } = at;
                self.open_object(FileLine {
                    line,
                    feature: self.feature,
                })
            }
            Token::EndArray => {
                self.feature = 0;
                self.object.is_in_list = false;
                Ok(())
            }
            _ => Err(FileFault::at_line(at, Reason::Expected(INNER))),
        }
    }

    /// Takes a token of an object in.
    fn take_inner(
        &mut self,
        token: Token<'_>,
        at: FileLine,
        drawing: &mut Drawing,
    ) -> Result<(), FileFault>
        requires { IsBetween self.old.wanted }
        ensures { OnOk result (DrawsOn self.old self.new drawing.old drawing.new) }
    {
        if self.object.is_in_list {
            return self.take_in_list(token, at);
        }
        match token {
            Token::Key(name) => self.begin_member(name, at),
            Token::EndObject => self.close(at, drawing),
            _ => Err(FileFault::at_line(at, Reason::Expected(INNER))),
        }
    }

    /// Goes on behind a position, an array's begin or its end: ends the line, the polygon and the
    /// coordinates that end here.
    fn end_parts(&mut self, nesting: Nesting, drawing: &mut Drawing) -> Result<(), FileFault>
        ensures { OnOk result (DrawsOn self.old self.new drawing.old drawing.new) }
    {
        let Nesting { depth, most } = nesting;
        self.nesting = nesting;
        self.wanted = Wanted::Coordinates;
        if depth == 0 {
            self.object.nesting = most;
            self.wanted = Wanted::Inner;
        }
        if depth.saturating_add(2) < most {
            self.shape.end_polygon();
        }
        if depth == 0 || depth.saturating_add(1) < most {
            return self.shape.end_line(drawing);
        }
        Ok(())
    }

    /// Takes the first number of a position in.
    fn take_first(
        &mut self,
        word: &str,
        at: FileLine,
        drawing: &mut Drawing,
    ) -> Result<(), FileFault>
        ensures { OnOk result (ReadsToken (number word.now) self.old self.new drawing.old
            drawing.new) }
    {
        if self.nesting.passed().is_none() {
            return Err(FileFault::at_line(at, Reason::Expected(COORDINATES)));
        }
        let x = drawing.number(word.as_bytes(), "x", at)?;
        self.wanted = Wanted::SecondNumber(x, at);
        Ok(())
    }

    /// Takes a token of coordinates in.
    fn take_coordinate(
        &mut self,
        token: Token<'_>,
        at: FileLine,
        drawing: &mut Drawing,
    ) -> Result<(), FileFault>
        ensures { OnOk result (ReadsToken (token_of token.entry) self.old self.new drawing.old
            drawing.new) }
    {
        let next = match token {
            Token::BeginArray => self.nesting.opened(),
            Token::EndArray => self.nesting.closed(),
            Token::Number(word) => return self.take_first(word, at, drawing),
            _ => None,
        };
        match next {
            Some(next) => self.end_parts(next, drawing),
            None => Err(FileFault::at_line(at, Reason::Expected(COORDINATES))),
        }
    }

    /// Takes the second number of a position in.
    fn take_second(
        &mut self,
        x: Number,
        file_line: FileLine,
        token: Token<'_>,
        at: FileLine,
        drawing: &mut Drawing,
    ) -> Result<(), FileFault>
        requires { self.old.wanted ≡ Wanted.SecondNumber x file_line }
        ensures { OnOk result (ReadsToken (token_of token.entry) self.old self.new drawing.old
            drawing.new) }
    {
        let Token::Number(word) = token else {
            return Err(FileFault::at_line(at, Reason::Missing("y")));
        };
        let y = drawing.number(word.as_bytes(), "y", at)?;
        self.wanted = Wanted::MoreNumbers(GeoPosition {
            spot: Spot::new(x, y, file_line),
            height: None,
        });
        Ok(())
    }

    /// Ends a position.
    fn end_position(
        &mut self,
        position: GeoPosition,
        drawing: &mut Drawing,
    ) -> Result<(), FileFault>
        requires { self.old.wanted ≡ Wanted.MoreNumbers position }
        ensures { OnOk result (ReadsToken end_array self.old self.new drawing.old drawing.new) }
    {
        self.shape.add(position, drawing)?;
        self.wanted = Wanted::Coordinates;
        match self.nesting.passed() {
            Some(next) => self.end_parts(next, drawing),
            None => Ok(()),
        }
    }

    /// Takes a further number of a position in.
    fn take_height(
        &mut self,
        position: GeoPosition,
        word: &str,
        at: FileLine,
        drawing: &mut Drawing,
    ) -> Result<(), FileFault>
        requires { self.old.wanted ≡ Wanted.MoreNumbers position }
        ensures { OnOk result (ReadsToken (number word.now) self.old self.new drawing.old
            drawing.new) }
    {
        if position.height.is_some() {
            self.has_more_numbers = true;
            return Ok(());
        }
        let height = drawing.number(word.as_bytes(), "z", at)?;
        self.wanted = Wanted::MoreNumbers(GeoPosition {
            spot: position.spot,
            height: Some(height),
        });
        Ok(())
    }

    /// Takes a further number of a position in, or its end.
    fn take_more(
        &mut self,
        position: GeoPosition,
        token: Token<'_>,
        at: FileLine,
        drawing: &mut Drawing,
    ) -> Result<(), FileFault>
        requires { self.old.wanted ≡ Wanted.MoreNumbers position }
        ensures { OnOk result (ReadsToken (token_of token.entry) self.old self.new drawing.old
            drawing.new) }
    {
        match token {
            Token::Number(word) => self.take_height(position, word, at, drawing),
            Token::EndArray => self.end_position(position, drawing),
            _ => Err(FileFault::at_line(at, Reason::Expected("a number"))),
        }
    }

    /// Takes a token in.
    fn take(
        &mut self,
        token: Token<'_>,
        at: FileLine,
        drawing: &mut Drawing,
    ) -> Result<(), FileFault>
        ensures { OnOk result (ReadsToken (token_of token.entry) self.old self.new drawing.old
            drawing.new) }
    {
        match self.wanted {
            Wanted::Inner => self.take_inner(token, at, drawing),
            Wanted::Coordinates => self.take_coordinate(token, at, drawing),
            Wanted::SecondNumber(x, file_line) => self.take_second(
                x, file_line, token, at, drawing,
            ),
            Wanted::MoreNumbers(position) => self.take_more(position, token, at, drawing),
            wanted => match wanted.step(token) {
                Ok(step) => self.take_step(step, at),
                Err(wanted) => Err(FileFault::at_line(at, Reason::Expected(wanted))),
            },
        }
    }

    /// Notes what is left out.
    fn note_left_out(&self, drawing: &mut Drawing) -> Result<(), FileFault>
        ensures { OnOk result (SameNumbers drawing.old drawing.new) }
    {
        if self.has_properties {
            drawing.leave_out("properties")?;
        }
        if self.has_more_numbers {
            drawing.leave_out("numbers of positions behind the third")?;
        }
        Ok(())
    }
}

/// Passes over a value, where one is to be passed over.
fn pass_value(text: &mut JsonText<'_>, state: &mut GeoState) -> Result<(), FileFault>
    ensures { OnOk result ((all : List SpecToken) (drawing : Drawing)
        → HasReadTokens all text.old.reader state.old drawing
        → HasReadTokens all text.new.reader state.new drawing) }
{
    let Some(next) = state.wanted.behind_value() else {
        return Ok(());
    };
    text.skip_value()?;
    state.wanted = next;
    Ok(())
}

/// Reads a token, and passes over the value behind it where that is left out.
fn read_token(
    text: &mut JsonText<'_>,
    state: &mut GeoState,
    drawing: &mut Drawing,
) -> Result<(), FileFault>
    ensures { OnOk result ((all : List SpecToken)
        → HasReadTokens all text.old.reader state.old drawing.old
        → HasReadTokens all text.new.reader state.new drawing.new) }
{
    let token = text.next()?;
    state.take(token, text.at, drawing)?;
    text.at.feature = state.feature;
    pass_value(text, state)
}

/// Reads the object that a text is.
fn read_object(
    text: &mut JsonText<'_>,
    state: &mut GeoState,
    drawing: &mut Drawing,
) -> Result<(), FileFault>
    requires { HasReadRuns text.old.reader text.old.reader state.old drawing.old }
    ensures { OnOk result (DrawsRuns text.old.reader drawing.new) }
{
    for _ in 0..u64::MAX {
        read_token(text, state, drawing)?;
        if state.has_ended {
            return text.end();
        }
    }
    text.end()
}

/// A text without the mark that it may begin with.
fn without_mark(bytes: &[u8]) -> &[u8]
    ensures { IsWithoutMark bytes.now result.now }
{
    match bytes {
        [0xEF, 0xBB, 0xBF, rest @ ..] => rest,
        _ => bytes,
    }
}

/// Reads a text of GeoJSON.
fn read_text(bytes: &[u8], drawing: &mut Drawing, alloc: Global) -> Result<(), FileFault>
    requires { HasNoNumbers drawing.old }
    ensures { OnOk result (DrawsRuns (tokens bytes.now) drawing.new) }
{
    let Ok(text) = str::from_utf8(bytes) else {
        return Err(FileFault::at(0, Reason::NotUtf8));
    };
    let mut scratch = Scratch::new(alloc);
    let Ok(reader) = Reader::new(text, &mut scratch) else {
        return Err(FileFault::at(0, Reason::NoMemory));
    };
    let mut text = JsonText::new(reader, bytes);
    let mut state = GeoState::new(alloc);
    read_object(&mut text, &mut state, drawing)?;
    state.note_left_out(drawing)
}

/// Reads GeoJSON.
pub fn read_geojson<R: Read + Drop>(reader: R, alloc: Global) -> Result<Drawing, FileFault>
    ensures { IfOk result (λ d. IfSome (R.remaining reader) (λ text. IsGeoJson text d)) }
{
    let whole = CheckedText::whole(reader).read_all(alloc)?;
    let mut drawing = Drawing::new(alloc);
    let bytes = without_mark(whole.as_slice()).trim_ascii_end();
    read_text(bytes, &mut drawing, alloc)?;
    Ok(drawing)
}
