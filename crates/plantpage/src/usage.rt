//! What `plantpage help` prints.

pub const USAGE: &str = "\
plantpage sets the texts of a job on a page, as JavaScript string literals.

    plantpage [JOB [PAGE]]   set the page of the file JOB, else of standard input; write it to the file PAGE
    plantpage help           print this text

A job is lines of text:

    # REMARK                 says nothing, as a blank line does
    options NAME ..          any of single_quote, minify and ascii_only
    limit N                  the page's quota in bytes, up to 65536
    string TEXT              set TEXT in double or single quotes
    string-bt TEXT           set TEXT in quotes, of which the backtick may be one
    as-template TEXT         set TEXT as a template
    CALL:hex 61 0A ..        the same calls, with the text's bytes in hex
    CALL:hex:lone ..         the same, and say that a surrogate stands alone in the text
    CALL:hex:plain ..        the same, and say that none does

options and limit stand at most once, before the first call. A text is the rest of the line after one blank,
as it stands. Each call is told on a line of its own: 0 and the bytes that it printed, or the number of
the refusal and the layer that refused. A refused call leaves the page as it was, and the job goes on.

An example:

    # the silos of line 2
    options ascii_only
    limit 2000
    string Raw meal silo 2
    string:hex 47 79 70 73 75 6D 0A
";
