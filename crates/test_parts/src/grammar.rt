//! The commands of the grammar, whether they are answered yet or not.

use triangulate_run::command::{Command, Coordinates};
use triangulate_run::grammar::parse;

fn at(x: i64, y: i64) -> Coordinates {
    Coordinates { x, y }
}

fn each_command_is_read() -> bool {
    let found = (
        parse(b"insert 0 1"),
        parse(b"remove 9"),
        parse(b"constrain 2 3"),
        parse(b"release 0 1"),
        parse(b"locate -1 -1"),
        parse(b"nearest 536870912 536870912"),
        parse(b"line -30 0 40 0"),
        parse(b"counts"),
        parse(b"faces"),
    );
    found
        == (
            Some(Command::Insert(at(0, 1))),
            Some(Command::Remove(9)),
            Some(Command::Constrain(2, 3)),
            Some(Command::Release(0, 1)),
            Some(Command::Locate(at(-1, -1))),
            Some(Command::Nearest(at(536870912, 536870912))),
            Some(Command::Line(at(-30, 0), at(40, 0))),
            Some(Command::Counts),
            Some(Command::Faces),
        )
}

fn a_line_that_is_no_text_is_no_command() -> bool {
    let found = (parse(b"counts\xff"), parse(b"insert 0 \x801"), parse(b"\0"));
    found == (None, None, None)
}

/// What is to hold of the grammar, and whether it does.
pub(crate) fn checks() -> [(&'static str, bool); 2] {
    [
        ("each command is read", each_command_is_read()),
        (
            "a line that is no text is no command",
            a_line_that_is_no_text_is_no_command(),
        ),
    ]
}
