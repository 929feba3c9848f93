//! What the definitions of a run imply.
ghost use Rattle.triangulate_run.specs.Run.{HasOneReading};

/// Laws: an input is cut into lines in one way, and no line spells two commands.
pub fn one_reading()
    ensures { HasOneReading }
{}
