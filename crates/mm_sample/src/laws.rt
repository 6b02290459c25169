//! A law of lines.
ghost use Rattle.mm_sample.specs.Summary.{WrittenLinesAreFound};

/// Lines that are written, each with a newline at its end, are the lines of what is written.
pub fn written_lines_are_found()
    ensures { WrittenLinesAreFound }
{}
